//! Sets in square brackets.

ghost use Rattle.std.specs.Prelude.{◌≡◌, ◌+◌, ◌∷◌, IfOk, length};
ghost use Rattle.std.specs.Str.{chars};
ghost use Rattle.grammar_reader_words.specs.inner.Cursor.{seen_marks, seen_ranges};
ghost use Rattle.grammar_reader_words.specs.inner.Next.{IsShorter, ranges_by};
ghost use Rattle.grammar_reader_words.specs.declared.quoted.Mark.TheVariants.{Code};
ghost use Rattle.grammar_reader_words.specs.Quoted.{first_plain, has_property, last_plain, outer_dashes_plain, pieces_from, plain, ranges_of, set_piece};

use crate::quoted::{Mark, Piece, set_piece};
use crate::text::first_char;
use faults::Memory;
use std::alloc::Global;

/// The pieces up to the closing bracket, and what follows it.
pub fn marks(alloc: Global, text: &str) -> Result<Option<(Vec<Mark>, &str)>, Memory>
    ensures { IfOk result (λ o. seen_marks o ≡ pieces_from set_piece 0 (chars text.now)) }
{
    let mut marks = Vec::new(alloc);
    let mut rest = text;
    while let Some((c, after)) = first_char(rest) {
        match set_piece(c, after) {
            Piece::Broken => return Ok(None),
            Piece::Closed(further) => return Ok(Some((marks, further))),
            Piece::One(mark, further) => {
                marks.push(mark)?;
                rest = further;
            }
        }
    }
    Ok(None)
}

pub fn has_property(marks: &[Mark]) -> bool
    ensures { result ≡ has_property marks.now }
{
    let mut rest = marks;
    while let [mark, others @ ..] = rest {
        if matches!(mark, Mark::Property) {
            return true;
        }
        rest = others;
    }
    false
}

fn plain(mark: Mark) -> Mark
    ensures { result ≡ plain mark }
{
    match mark {
        Mark::Dash => Mark::Code(45),
        _ => mark,
    }
}

fn make_first_plain(marks: &mut [Mark])
    ensures { marks.new ≡ first_plain marks.old }
{
    if !marks.is_empty() {
        marks[0] = plain(marks[0]);
    }
}

fn make_last_plain(marks: &mut [Mark])
    ensures { marks.new ≡ last_plain marks.old }
{
    let n = marks.len();
    if n > 0 {
        marks[n - 1] = plain(marks[n - 1]);
    }
}

/// A `-` that is first or last is itself.
pub fn make_outer_dashes_plain(marks: &mut [Mark])
    ensures { marks.new ≡ outer_dashes_plain marks.old }
{
    make_first_plain(marks);
    make_last_plain(marks);
}

/// What the first marks write, and the marks after them.
enum Next<'a> {
    End,
    Broken,
    Property(&'a [Mark]),
    Range(u32, u32, &'a [Mark]),
}

/// What a character writes that `others` follow.
fn range_from(code: u32, others: &[Mark]) -> Next<'_>
    ensures same { ranges_of (Code code ∷ others.now) ≡ ranges_by result }
    ensures shorter { IsShorter (length others.now + 1) result }
{
    match others {
        [Mark::Dash, Mark::Code(last), further @ ..] => {
            if code <= *last {
                Next::Range(code, *last, further)
            } else {
                Next::Broken
            }
        }
        _ => Next::Range(code, code, others),
    }
}

fn first_marks(marks: &[Mark]) -> Next<'_>
    ensures same { ranges_of marks.now ≡ ranges_by result }
    ensures shorter { IsShorter (length marks.now) result }
{
    match marks {
        [] => Next::End,
        [mark, others @ ..] => match mark {
            Mark::Dash => Next::Broken,
            Mark::Property => Next::Property(others),
            Mark::Code(code) => range_from(*code, others),
        },
    }
}

/// The ranges that the marks write, in their order.
pub fn ranges_of(alloc: Global, marks: &[Mark]) -> Result<Option<Vec<(u32, u32)>>, Memory>
    ensures { IfOk result (λ o. seen_ranges o ≡ ranges_of marks.now) }
{
    let mut ranges = Vec::new(alloc);
    let mut rest = marks;
    loop {
        match first_marks(rest) {
            Next::End => return Ok(Some(ranges)),
            Next::Broken => return Ok(None),
            Next::Property(others) => rest = others,
            Next::Range(first, last, others) => {
                ranges.push((first, last))?;
                rest = others;
            }
        }
    }
}
