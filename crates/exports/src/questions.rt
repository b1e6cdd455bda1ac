// The calls that read.
ghost use Rattle.desk.specs.Desk.{Question};
ghost use Rattle.desk_check.specs.Read.{desk_of};
ghost use Rattle.exports.specs.Numbers.{AskedInNumbers, ShownInNumbers};

use crate::numbers::{element, formula_value, judged, per_cent};
use crate::{Answer, Shown};
use desk_check::{Desk, Standing};
use elements::Element;
use model::State;

// Which table is the whole one, and how many of its bytes are shown.
#[unsafe(no_mangle)]
pub extern "C" fn koelchair_show<'a>(
    s: Standing,
    store: &[u8],
    first: &'a [u8],
    second: &'a [u8],
) -> Shown
    ensures { ShownInNumbers (desk_of s store.now first.now second.now) result }
{
    let d = Desk {
        standing: s,
        store,
        first,
        second,
    };
    let length = desk_questions::show(d).len();
    if length == 0 {
        return Shown {
            table: 0,
            length: 0,
        };
    }
    Shown {
        table: if s.second_whole { 2 } else { 1 },
        length,
    }
}

// A formula's element at a state of model 1 or 2, with its facts.
#[unsafe(no_mangle)]
pub extern "C" fn koelchair_value(
    s: Standing,
    store: &[u8],
    first: &[u8],
    second: &[u8],
    formula: u8,
    model: u8,
    state: u8,
) -> Answer
    ensures { AskedInNumbers (Question.Value formula model state) s store.now first.now second.now result }
{
    let d = Desk {
        standing: s,
        store,
        first,
        second,
    };
    formula_value(desk_questions::value(d, formula, model, State(state)))
}

// A formula's value on model 1 or 2, with its facts.
#[unsafe(no_mangle)]
pub extern "C" fn koelchair_whole(
    s: Standing,
    store: &[u8],
    first: &[u8],
    second: &[u8],
    formula: u8,
    model: u8,
) -> Answer
    ensures { AskedInNumbers (Question.Whole formula model) s store.now first.now second.now result }
{
    let d = Desk {
        standing: s,
        store,
        first,
        second,
    };
    formula_value(desk_questions::whole(d, formula, model))
}

// The score of the shown table.
#[unsafe(no_mangle)]
pub extern "C" fn koelchair_score<'a>(
    s: Standing,
    store: &[u8],
    first: &'a [u8],
    second: &'a [u8],
) -> Answer
    ensures { AskedInNumbers Question.Score s store.now first.now second.now result }
{
    let d = Desk {
        standing: s,
        store,
        first,
        second,
    };
    element(desk_questions::score(d))
}

// The per cent of shown entries at or above an element.
#[unsafe(no_mangle)]
pub extern "C" fn koelchair_share<'a>(
    s: Standing,
    store: &[u8],
    first: &'a [u8],
    second: &'a [u8],
    e: u8,
) -> Answer
    ensures { AskedInNumbers (Question.Share e) s store.now first.now second.now result }
{
    let d = Desk {
        standing: s,
        store,
        first,
        second,
    };
    per_cent(desk_questions::share(d, Element(e)))
}

// Whether each entry of a table is at or below that of F of the table.
#[unsafe(no_mangle)]
pub extern "C" fn koelchair_judge(
    s: Standing,
    store: &[u8],
    first: &[u8],
    second: &[u8],
    table: &[u8],
) -> Answer
    ensures { AskedInNumbers (Question.Judge table.now) s store.now first.now second.now result }
{
    let d = Desk {
        standing: s,
        store,
        first,
        second,
    };
    judged(desk_questions::judge(d, table))
}
