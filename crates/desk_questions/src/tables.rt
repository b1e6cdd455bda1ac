// The calls that read the shown table, or judge one.
ghost use Rattle.desk.specs.Desk.{Call, Question, Reply};
ghost use Rattle.desk_check.specs.Read.{desk_in};
ghost use Rattle.desk_questions.specs.Answer.{Reads, Asks, element_reply, share_reply, judge_reply};

use desk_check::{Desk, table_obeys, table_size};
use elements::{Algebra, Codes, Element};
use entries::Table;
use refusal::Refusal;

// The first N1·N2 bytes of the whole table; an empty part where the desk is refused.
pub fn show<'s, 't>(d: Desk<'s, 't>) -> &'t [u8]
    ensures { Reads Call.Show (desk_in d.entry) (Reply.Shown result.now) }
{
    let mut w = Codes::new();
    match d.examine(&mut w) {
        Err(_) => &d.whole_table()[..0],
        Ok(z) => &d.whole_table()[..table_size(z)],
    }
}

// The score of the shown table.
pub fn score(d: Desk) -> Result<Element, Refusal>
    ensures { Asks Question.Score (desk_in d.entry) (element_reply result) }
{
    let mut w = Codes::new();
    let z = d.examine(&mut w)?;
    let algebra = Algebra {
        codes: &w,
        lattice: z.lattice,
    };
    let shown = Table {
        models: d.models(),
        bytes: d.whole_table(),
    };
    Ok(rounds::score(&algebra, &shown))
}

// The per cent of shown entries at or above e.
pub fn share(d: Desk, e: Element) -> Result<u8, Refusal>
    ensures { Asks (Question.Share e.0) (desk_in d.entry) (share_reply result) }
{
    let mut w = Codes::new();
    let z = d.examine(&mut w)?;
    if z.lattice.size <= e.0 {
        return Err(Refusal::OutOfRange);
    }
    let shown = &d.whole_table()[..table_size(z)];
    Ok(share::share(&w, e, shown))
}

// Whether each entry of a table is at or below that of F of the table.
pub fn judge(d: Desk, table: &[u8]) -> Result<bool, Refusal>
    ensures { Asks (Question.Judge table.now) (desk_in d.entry) (judge_reply result) }
{
    let mut w = Codes::new();
    let z = d.examine(&mut w)?;
    let n = table_size(z);
    if table.len() != n || !table_obeys(table, n, z.lattice.size) {
        return Err(Refusal::OutOfRange);
    }
    let algebra = Algebra {
        codes: &w,
        lattice: z.lattice,
    };
    let judged = Table {
        models: d.models(),
        bytes: table,
    };
    Ok(rounds::is_post_fixed(&algebra, &judged))
}
