//! Theorems that hold for all texts: about layouts of parts, edits of measured texts, and caret steps.
ghost use Rattle.std.specs.Prelude.{◌≡◌, ◌++◌, ◌⊎◌, ℕ, List, length, true};
ghost use Rattle.bidi.specs.Cuts.{paragraphs};
ghost use Rattle.lines.specs.Layouts.{Rules, cut_by, with_advances};
ghost use Rattle.lines.specs.Ordered.{MarksStay};
ghost use Rattle.lines.specs.Pages.{page};
ghost use Rattle.lines.specs.declared.printing.print.Print.{Print};
ghost use Rattle.session.specs.Damage.{Replaces};
ghost use Rattle.session.specs.Edits.{Replacement};
ghost use Rattle.session.specs.Kept.{back_advances, layouts_of, lines_in, IsCutAt};
ghost use Rattle.session.specs.Measuring.{SetsAdvances};
ghost use Rattle.session.specs.Sessions.{Edits, SessionState};
ghost use Rattle.session.specs.Steps.{StepsAreNearest};
ghost use Rattle.session.specs.declared.edits.Damage.{Damage};

use bidi::paragraphs_are_pieces;
use lines::{Laid, clusters_adjoin, lines_are_ordered, runs_adjoin, runs_have_all_columns};

/// States, as a theorem, that the layouts of a text that is split at a paragraph boundary are those of the
/// first part, followed by those of the second part. This holds for any tables, options and width. If the
/// text is measured, each part has the advances of its characters. The printed bytes can be split in the same
/// way. So the parts of a long text can be laid out in any order. Costs nothing at run time.
pub fn texts_are_laid_out_in_parts()
    ensures layouts { (rules : Rules) (width : ℕ) (front rest : List ℕ)
        → IsCutAt (cut_by rules) front rest
        → layouts_of rules width (front ++ rest)
        ≡ layouts_of rules width front
        ++ layouts_of (with_advances rules (back_advances (length front) rules.advances)) width rest }
    ensures pages { (rules : Rules) (width : ℕ) (print : Print) (front rest : List ℕ)
        → IsCutAt (cut_by rules) front rest
        → page rules width print (paragraphs (cut_by rules) (front ++ rest))
        ≡ page rules width print (paragraphs (cut_by rules) front)
        ++ page rules width print (paragraphs (cut_by rules) rest) }
{
    paragraphs_are_pieces();
}

/// States, as a theorem, which lines to redraw after two calls on a measured session: an edit, and a call
/// that sets the advances of exactly the new paragraphs of the edit's damage. Starting at the `first_line` of
/// the first damage, the `new_lines` lines of the second damage replace the `old_lines` lines of the first.
/// All other lines are the same. Costs nothing at run time.
pub fn measured_edits_are_drawn_at_once()
    ensures { (edit : Replacement) (pos : ℕ) (list : List ℕ) (old edited measured : SessionState)
        (damage second : Damage)
        → Edits edit old edited damage → SetsAdvances pos list edited measured second
        → second.first_par ≡ damage.first_par → second.old_pars ≡ damage.new_pars
        → Replaces (lines_in old.kept) (lines_in measured.kept) damage.first_line damage.old_lines
        second.new_lines }
{}

/// States, as a theorem, that the units of each line tile the line's columns. Each step leads to the nearest
/// boundary in its direction on the same line, if there is one. So repeated steps reach every boundary in
/// their direction. From a boundary, a step and a step back return to the same column. The edge at a column
/// is at the last boundary up to that column. All of this holds at any width, under any rules with
/// `reorder_clusters`, and under any rules that leave nonspacing marks in place or give them no columns.
/// Without `reordernsm`, nonspacing marks stay in place. In the tables of Unicode 15.0, all nonspacing marks
/// except U+2D7F and U+1171E take no columns; this can be read from the tables, and is not proved. Costs
/// nothing at run time.
pub fn steps_lead_to_boundaries()
    ensures { (rules : Rules) (width : ℕ) (text : List ℕ)
        → (rules.options.reorder_clusters ≡ true) ⊎ MarksStay rules text
        → StepsAreNearest rules (layouts_of rules width text) }
{
    paragraphs_are_pieces();
    Laid::lines_begin_in_order();
    lines_are_ordered();
    runs_adjoin();
    clusters_adjoin();
    runs_have_all_columns();
}
