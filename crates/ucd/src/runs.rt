//! Runs of code points with the same properties.
//!
//! One pass goes through the entries of all files in parallel, and through the entries that the version adds.
//! A run ends where an entry begins or ends.
ghost use Rattle.std.specs.Prelude.{◌≡◌, ℕ, ◌<◌, ◌≤◌, List};
ghost use Rattle.ucd.specs.declared.grammar.Entry.{Entry};
ghost use Rattle.ucd.specs.Entries.{value_at};
ghost use Rattle.ucd.specs.Puts.{put_by};
ghost use Rattle.ucd.specs.Rising.{AreRisingFrom};

use crate::bidi_class::BidiClass;
use crate::bracket::{Bracket, Mirror};
use crate::category::Category;
use crate::default_classes::default_classes;
use crate::dotted_circle::{Circle, circles};
use crate::emoji::Pictograph;
use crate::entries::Entries;
use crate::grammar::{Entry, Layer};
use crate::line_class::LineClass;
use crate::properties::Properties;
use crate::range_table::CODE_POINTS;
use crate::rising::RisingEntries;
use crate::version::Version;
use crate::width::Width;
use std::marker::Model;

/// The properties of the code points in `start..end`.
#[derive(Clone, Copy)]
pub struct Run {
    pub start: usize,
    pub end: usize,
    pub properties: Properties,
}

/// The remaining entries of a file.
#[derive(Drop)]
pub struct Cursor<'a, V> {
    entries: &'a [Entry<V>],
}

impl<'a, V> Model for Cursor<'a, V> {
    ghost Value = { List (Entry V) };

    ghost view = { λ c. c.entries.now };

    ghost invariant = { λ c. AreRisingFrom 0 c.entries.now };
}

impl<'a, V: Layer> Cursor<'a, V> {
    ghost use Rattle.ucd.specs.Runs.{EndsFrom};

    fn new(entries: &'a RisingEntries<V>) -> Cursor<'a, V>
        ensures { result ≡ entries.now }
    {
        Cursor {
            entries: entries.as_slice(),
        }
    }

    fn of(entries: &'a [Entry<V>]) -> Cursor<'a, V>
        requires { AreRisingFrom 0 entries.now }
        ensures { result ≡ entries.now }
    {
        Cursor { entries }
    }

    // Skips the entries that end before `point`. For most runs, most files have no such entry, and then no
    // loop is needed.
    fn pass(&mut self, point: usize)
        ensures values { (c : ℕ) → point ≤ c
            → value_at self.new c ≡ value_at self.old c }
        ensures ends { EndsFrom point self.new }
    {
        if let Some(first) = self.entries.first() {
            if (first.last as usize) < point {
                self.entries = Cursor::entries_from(self.entries, point);
            }
        }
    }

    // Returns the entries without those that end before `point`.
    fn entries_from(entries: &'a [Entry<V>], point: usize) -> &'a [Entry<V>]
        requires { AreRisingFrom 0 entries.now }
        ensures rising { AreRisingFrom 0 result.now }
        ensures values { (c : ℕ) → point ≤ c
            → value_at result.now c ≡ value_at entries.now c }
        ensures ends { EndsFrom point result.now }
    {
        let mut left = entries;
        while let Some((first, later)) = left.split_first() {
            if point <= first.last as usize {
                break;
            }
            left = later;
        }
        left
    }

    // Applies the value at the start of a run to the run's properties, and shortens the run if the value
    // changes before its end.
    fn applied(&self, version: Version, run: Run) -> Run
        requires ends { EndsFrom run.start self.now }
        requires run { run.start < run.end }
        ensures start { result.start ≡ run.start }
        ensures end { (run.start < result.end) × (result.end ≤ run.end) }
        ensures put { result.properties
            ≡ put_by (V.put version) (value_at self.now run.start) run.properties }
        ensures same { (c : ℕ) → run.start ≤ c → c < result.end
            → value_at self.now c ≡ value_at self.now run.start }
    {
        let Some(first) = self.entries.first() else {
            return run;
        };
        let (begin, end) = (first.first as usize, first.last as usize + 1);
        if run.start < begin {
            return Run {
                end: run.end.min(begin),
                ..run
            };
        }
        Run {
            end: run.end.min(end),
            properties: first.value.put(version, run.properties),
            ..run
        }
    }
}

/// The remaining entries of all files.
#[derive(Drop)]
pub struct Cursors<'a> {
    version: Version,
    default_classes: Cursor<'a, BidiClass>,
    bidi_classes: Cursor<'a, BidiClass>,
    brackets: Cursor<'a, Bracket>,
    mirrors: Cursor<'a, Mirror>,
    line_classes: Cursor<'a, LineClass>,
    circles: Cursor<'a, Circle>,
    widths: Cursor<'a, Width>,
    pictographs: Cursor<'a, Pictograph>,
    categories: Cursor<'a, Category>,
}

impl<'a> Cursors<'a> {
    ghost use Rattle.ucd.specs.Runs.{layers_left, AllEndFrom};
    ghost use Rattle.ucd.specs.Said.{said, layers_of};

    fn of(version: Version, entries: &'a Entries) -> Cursors<'a>
        ensures { layers_left result ≡ layers_of version entries.now }
    {
        Cursors {
            version,
            default_classes: Cursor::of(default_classes(version)),
            bidi_classes: Cursor::new(&entries.bidi.classes),
            brackets: Cursor::new(&entries.bidi.brackets),
            mirrors: Cursor::new(&entries.bidi.mirrors),
            line_classes: Cursor::new(&entries.breaks.classes),
            circles: Cursor::of(circles(version)),
            widths: Cursor::new(&entries.breaks.widths),
            pictographs: Cursor::new(&entries.breaks.pictographs),
            categories: Cursor::new(&entries.breaks.categories),
        }
    }

    // Skips the entries that end before `point`.
    fn pass(&mut self, point: usize)
        ensures said { (c : ℕ) → point ≤ c
            → said (layers_left self.new) c ≡ said (layers_left self.old) c }
        ensures ends { AllEndFrom point (layers_left self.new) }
    {
        self.default_classes.pass(point);
        self.bidi_classes.pass(point);
        self.brackets.pass(point);
        self.mirrors.pass(point);
        self.line_classes.pass(point);
        self.circles.pass(point);
        self.widths.pass(point);
        self.pictographs.pass(point);
        self.categories.pass(point);
    }

    // Returns the run that starts at `start`.
    fn run_at(&self, start: usize) -> Run
        requires ends { AllEndFrom start (layers_left self.now) }
        requires start { start < 1114112 }
        ensures start { result.start ≡ start }
        ensures end { (start < result.end) × (result.end ≤ 1114112) }
        ensures said { (c : ℕ) → start ≤ c → c < result.end
            → said (layers_left self.now) c ≡ result.properties }
    {
        let run = Run {
            start,
            end: CODE_POINTS,
            properties: Properties::unnamed(),
        };
        let version = self.version;
        let run = self.default_classes.applied(version, run);
        let run = self.bidi_classes.applied(version, run);
        let run = self.brackets.applied(version, run);
        let run = self.mirrors.applied(version, run);
        let run = self.line_classes.applied(version, run);
        let run = self.circles.applied(version, run);
        let run = self.widths.applied(version, run);
        // Categories are applied after pictographs, because a pictograph counts as unassigned until its
        // category says otherwise.
        let run = self.pictographs.applied(version, run);
        self.categories.applied(version, run)
    }
}

/// A run, and the entries after it.
#[derive(Drop)]
pub struct Runs<'a> {
    left: Cursors<'a>,
    run: Run,
}

impl<'a> Runs<'a> {
    ghost use Rattle.ucd.specs.Layers.{Layers};
    ghost use Rattle.ucd.specs.Runs.{ReachesTo};
    ghost use Rattle.ucd.specs.Said.{layers_of};

    /// Starts a pass over all code points, with an empty run before the first one.
    pub fn of(version: Version, entries: &'a Entries) -> Runs<'a>
        ensures { ReachesTo (layers_of version entries.now) result 0 }
    {
        let run = Run {
            start: 0,
            end: 0,
            properties: Properties::unnamed(),
        };
        Runs {
            left: Cursors::of(version, entries),
            run,
        }
    }

    /// Returns the current run, which is empty before the first `move_to`.
    pub fn run(&self) -> Run
        ensures { result ≡ self.now.run }
    {
        self.run
    }

    /// Moves to the run that contains `point`: the current run, or the next one if the current run ends
    /// there.
    pub fn move_to(&mut self, point: usize)
        requires run { (self.old.run.start ≤ point) × (point ≤ self.old.run.end)
            × (self.old.run.end ≤ 1114112) }
        requires point { point < 1114112 }
        ensures start { self.new.run.start ≤ point }
        ensures end { (point < self.new.run.end) × (self.new.run.end ≤ 1114112) }
        ensures reaches { (k : Layers) → ReachesTo k self.old point → ReachesTo k self.new point }
    {
        if point >= self.run.end {
            self.move_on();
        }
    }

    // Moves to the run that starts where the current run ends.
    fn move_on(&mut self)
        requires { self.old.run.end < 1114112 }
        ensures start { self.new.run.start ≡ self.old.run.end }
        ensures end { (self.old.run.end < self.new.run.end) × (self.new.run.end ≤ 1114112) }
        ensures reaches { (k : Layers) → ReachesTo k self.old self.old.run.end
            → ReachesTo k self.new self.old.run.end }
    {
        let start = self.run.end;
        self.left.pass(start);
        self.run = self.left.run_at(start);
    }
}
