//! Theorems about joins.
ghost use Rattle.joining.specs.Pairs.{JoinsAreMutual, OnlyJoiningTypesJoin};
ghost use Rattle.joining.specs.Pairs.{SlicesJoinAlike, TransparentCharactersChangeNothing};

/// States, as a theorem, that a character joins at most one after it, and at most one before it. Costs
/// nothing at run time.
pub fn joins_are_mutual()
    ensures { JoinsAreMutual }
{}

/// States, as a theorem, that only characters of joining types D, R, L and C join. Costs nothing at run time.
pub fn only_joining_types_join()
    ensures { OnlyJoiningTypesJoin }
{}

/// States, as a theorem, that inserting a transparent character changes no joins of other characters, if X9
/// removes it, or if it has the level of the character before it. Costs nothing at run time.
pub fn transparent_characters_change_nothing()
    ensures { TransparentCharactersChangeNothing }
{}

/// States, as a theorem, that two characters of a slice, as of a line of a paragraph, join if and only if
/// they join in the whole text. Costs nothing at run time.
pub fn slices_join_alike()
    ensures { SlicesJoinAlike }
{}
