//! Theorems about all layouts.
ghost use Rattle.std.specs.Prelude.{◌≡◌, ◌⊎◌, ◌≤◌, ℕ, Bool, false, true, List, length, map, slice_get};
ghost use Rattle.std.specs.Prelude.{slice_index, sum_by, take, All, Option, Some};
ghost use Rattle.std.specs.List.{flat_map};
ghost use Rattle.reorder.specs.Runs.{runs_of};
ghost use Rattle.ucd.specs.declared.tables.Tables.{Tables};
ghost use Rattle.lines.specs.Bytes.{line_bytes};
ghost use Rattle.lines.specs.Clusters.{cluster_ends};
ghost use Rattle.lines.specs.Columns.{run_columns};
ghost use Rattle.lines.specs.Layouts.{Layout, Rules, layout_of, lines_of, start_of, visuals};
ghost use Rattle.lines.specs.Ordered.{ClustersAdjoin, IsOrdered, MarksStay, RunsAdjoin};
ghost use Rattle.lines.specs.Pages.{layout_bytes};
ghost use Rattle.lines.specs.Refilling.{StartsFollow, StartsSplice, StartsStay};
ghost use Rattle.lines.specs.Splicing.{LinesSplice};
ghost use Rattle.lines.specs.TabStops.{TabsEndAtStops};
ghost use Rattle.lines.specs.Visual.{Visual};
ghost use Rattle.lines.specs.declared.char_info.CharInfo.{CharInfo};
ghost use Rattle.lines.specs.declared.options.Options.{Options};
ghost use Rattle.lines.specs.declared.printing.print.Print.{Print};

use breaks::paragraphs_end_at_must;

/// States, as a theorem, that a paragraph has at most as many lines as characters, for any tables, options
/// and width. Costs nothing at run time.
pub fn lines_are_few()
    ensures { (rules : Rules) (width : ℕ) (text : List ℕ)
        → length (lines_of rules width text) ≤ length text }
{}

/// States, as a theorem, that the lines of a paragraph contain all its characters, including those in tails.
/// For any tables, options and width, the lengths of the lines add up to the length of the paragraph. Costs
/// nothing at run time.
pub fn lines_have_all_characters()
    ensures { (rules : Rules) (width : ℕ) (text : List ℕ)
        → sum_by (λ line. line.len) (visuals (layout_of rules width text)) ≡ length text }
{
    // By this theorem, the last break mark of each paragraph is `Must`.
    paragraphs_end_at_must();
}

/// States, as a theorem, that the bytes written for a paragraph are the bytes of its lines, in order.
/// `Laid::line` returns each line, and `VisualLine::write` writes its bytes. Costs nothing at run time.
pub fn paragraphs_print_their_lines()
    ensures { (width : ℕ) (print : Print) (layout : Layout)
        → layout_bytes width print layout ≡ flat_map (line_bytes width print) (visuals layout) }
{}

/// States, as a theorem, that the columns of a line's level runs add up to those of the line, under any rules
/// and at any width. `VisualLine::runs` returns the runs. Costs nothing at run time.
pub fn runs_have_all_columns()
    ensures { (rules : Rules) (width : ℕ) (text : List ℕ)
        → All (λ line. sum_by (run_columns line) (runs_of line.levels) ≡ line.columns)
        (visuals (layout_of rules width text)) }
{}

/// States, as a theorem for any rules and width, that each line has a level and a position for each shown
/// character, and that the line's position maps are inverses of each other. Costs nothing at run time.
pub fn lines_are_ordered()
    ensures { (rules : Rules) (width : ℕ) (text : List ℕ)
        → All IsOrdered (visuals (layout_of rules width text)) }
{}

/// States, as a theorem, that the characters of a level run are next to each other, at any width, without
/// `reorder_clusters`. The rules must leave nonspacing marks in place, or nonspacing marks must occupy no
/// columns. Costs nothing at run time.
pub fn runs_adjoin()
    ensures { (rules : Rules) (width : ℕ) (text : List ℕ)
        → rules.options.reorder_clusters ≡ false → MarksStay rules text
        → All RunsAdjoin (visuals (layout_of rules width text)) }
{}

/// States, as a theorem, that with `reorder_clusters` the characters of a cluster that are in one level run
/// are next to each other in logical order, at any width. The same holds for the characters of a level run at
/// an even level. Costs nothing at run time.
pub fn clusters_adjoin()
    ensures { (rules : Rules) (width : ℕ) (text : List ℕ) → rules.options.reorder_clusters ≡ true
        → (n : ℕ) (line : Visual) → slice_get (visuals (layout_of rules width text)) n ≡ Some line
        → ClustersAdjoin line (cluster_ends text)
        (slice_index (map start_of (lines_of rules width text)) n) }
{}

/// States, as a theorem, that each tab ends at a tab stop, at any width. Tab stops are counted from the left
/// edge of the line's shown part, or from the right edge in a right-to-left paragraph. Without
/// `reorder_clusters`, the rules must leave nonspacing marks in place, or nonspacing marks must occupy no
/// columns. Costs nothing at run time.
pub fn tabs_end_at_stops()
    ensures { (rules : Rules) (width : ℕ) (text : List ℕ)
        → (rules.options.reorder_clusters ≡ true) ⊎ MarksStay rules text
        → All TabsEndAtStops (visuals (layout_of rules width text)) }
{}

/// States, as a theorem, that the line starts after a given line start do not depend on the characters before
/// that start, with and without `nobreak`, and at any width. Costs nothing at run time.
pub fn later_lines_follow()
    ensures { (nobreak : Bool) (width : ℕ) (before after : List CharInfo)
        → StartsFollow nobreak width before after }
{}

/// States, as a theorem, which line starts a change leaves in place. Both paragraphs have the same first `n`
/// characters. A line start and all earlier ones stay if the first changed character comes after a break
/// opportunity past that start, or after the end of the next line. Costs nothing at run time.
pub fn earlier_lines_stay()
    ensures { (nobreak : Bool) (width : ℕ) (before after : List CharInfo) (n : ℕ)
        → take n before ≡ take n after → StartsStay nobreak width before after n }
{}

/// States, as a theorem, how the line starts of a changed paragraph follow from its old line starts and from
/// those of a window around the change. Both paragraphs have the same first `n` characters. Costs nothing at
/// run time.
pub fn line_starts_are_spliced()
    ensures { (nobreak : Bool) (width : ℕ) (before after : List CharInfo) (n : ℕ)
        → take n before ≡ take n after → StartsSplice nobreak width before after n }
{}

/// States, as a theorem, how the lines of a changed paragraph follow from its old lines and from those of the
/// changed part, given where its lines start. Costs nothing at run time.
pub fn lines_are_spliced()
    ensures { (tables : Tables) (options : Options) (margin : Option ℕ) (base : ℕ)
        → LinesSplice tables options margin base }
{}
