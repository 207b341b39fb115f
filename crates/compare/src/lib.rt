// Two books compared, so that an adviser who has corrected one record can say what it touched: what differs, group by group.
#![tactic(auto)]

pub mod places; // places.rt: a book record by record, and its parts
pub mod remarks; // remarks.rt: hints, and the status
mod figures; // figures.rt: figures in kilograms
mod groups; // groups.rt: the steps from section to section
mod moved; // moved.rt: the same records in another order
mod partners; // partners.rt: for a record the same one of another run
pub mod plans; // plans.rt: two runs of records compared
mod records; // records.rt: a record's bytes
pub mod runs; // runs.rt: pairs of records
mod sections; // sections.rt: the steps of a section
mod in_words; // in_words.rt: a record in words

ghost use Rattle.std.specs.Prelude.{◌≡◌};
ghost use Rattle.compare.specs.InnerSides.{ValidSide};
ghost use Rattle.compare.specs.Places.{start as start_place};
ghost use Rattle.compare.specs.Sections.{alike_on};
ghost use Rattle.compare.specs.Steps.{Steps, idle as idle_side, at_places, beginning, no_step, stage_step, side_in, step_of};

use crate::groups::{group_step, name_step, verdict_step};
use crate::places::{Place, stands, start};
use crate::records::same;
use crate::sections::{before_step, section_step};

// Of one book in a section: where the telling stands, how many records are left to tell, where the section ends, and whether it is a group's.
#[derive(Clone, Copy)]
pub struct Side {
    pub place: Place,
    pub left: usize,
    pub end: Place,
    pub grouped: bool,
}

// The step that comes next: a book's name and its verdict, of the old one and then of the new one; what stands before the groups; the next piece of
// a section; the next group; none.
#[derive(Clone, Copy, PartialEq, Eq)]
pub enum Stage {
    OldName,
    OldVerdict,
    NewName,
    NewVerdict,
    Before,
    Section,
    NextGroup,
    End,
}

// Where a comparison has come to. In a section whether records go one by one, how many are only in another order, and how many are the same and give
// other lines.
#[derive(Clone, Copy)]
pub struct Cursor {
    pub stage: Stage,
    pub old: Side,
    pub new: Side,
    pub paired: bool,
    pub moved: usize,
    pub others: usize,
}

// The end of a piece in a buffer, and the cursor after it.
#[derive(Clone, Copy)]
pub struct Step {
    pub cursor: Cursor,
    pub written: usize,
}

// A book of which nothing is told at a place.
pub(crate) fn idle(p: Place) -> Side
    ensures { result ≡ idle_side p }
{
    Side {
        place: p,
        left: 0,
        end: p,
        grouped: false,
    }
}

// At two places, in a stage.
pub(crate) fn at_places(stage: Stage, p: Place, q: Place) -> Cursor
    ensures { result ≡ at_places stage p q }
{
    let old = idle(p);
    let new = idle(q);
    Cursor {
        stage: stage,
        old: old,
        new: new,
        paired: false,
        moved: 0,
        others: 0,
    }
}

// In a stage, where no place matters.
pub(crate) fn at_stage(stage: Stage) -> Cursor
    ensures { result ≡ at_places stage start_place start_place }
{
    at_places(stage, start(), start())
}

// Before the first step.
pub fn begin() -> Cursor
    ensures { result ≡ beginning }
{
    at_stage(Stage::OldName)
}

// Whether these bytes of both books are the same, where alike says it of all others.
pub fn alike_on(alike: bool, old: &[u8], new: &[u8]) -> bool
    ensures { result ≡ alike_on alike old.now new.now }
{
    alike & same(old, new)
}

// Whether a side's places are those of a book.
fn side_in(book: &[u8], s: Side) -> bool
    ensures { result ≡ side_in book.now s }
{
    let p = s.place;
    let q = s.end;
    stands(book, p) & stands(book, q)
}

// The end.
fn end_step(out: &mut [u8]) -> Step
    ensures { Steps no_step out.old out.new result }
{
    let d = at_stage(Stage::End);
    Step {
        cursor: d,
        written: 0,
    }
}

// The next step, by its stage.
fn stage_step(old: &[u8], new: &[u8], alike: bool, c: Cursor, out: &mut [u8]) -> Step
    requires { ValidSide old.now c.old × ValidSide new.now c.new }
    ensures { Steps (stage_step alike old.now new.now c) out.old out.new result }
{
    match c.stage {
        Stage::OldName => name_step(false, Stage::OldVerdict, out),
        Stage::OldVerdict => verdict_step(old, Stage::NewName, out),
        Stage::NewName => name_step(true, Stage::NewVerdict, out),
        Stage::NewVerdict => verdict_step(new, Stage::Before, out),
        Stage::Before => before_step(old, new, c, out),
        Stage::Section => section_step(old, new, c, out),
        Stage::NextGroup => group_step(old, new, alike, c.old.place, c.new.place, out),
        Stage::End => end_step(out),
    }
}

// The next piece of the text, from the start of out, and the cursor after it; alike is whether the bytes after these two are the same. A cursor that
// is none of these books ends it.
pub fn next(old: &[u8], new: &[u8], alike: bool, c: Cursor, out: &mut [u8]) -> Step
    ensures { Steps (step_of alike old.now new.now c) out.old out.new result }
{
    let s = c.old;
    let t = c.new;
    if !(side_in(old, s) & side_in(new, t)) {
        return end_step(out);
    }
    stage_step(old, new, alike, c, out)
}
