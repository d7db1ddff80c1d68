// The number of a refusal, and number and values of each answer.
#![tactic(auto)]

ghost use Rattle.std.specs.Prelude.{◌≡◌, get_or};
ghost use Rattle.model.specs.Answers.{listed, reply_answer, report_answer};
ghost use Rattle.answers.specs.Numbers.{number_in};

use model::{Refusal, Totals};

// 0, done, or the number of the refusal, whatever the answer's values are.
pub fn number_of<T: Copy>(r: Result<T, Refusal>) -> u32
    ensures { result ≡ number_in r }
{
    match r {
        Ok(_) => 0,
        Err(x) => x as u32,
    }
}

pub fn value_of(r: Result<usize, Refusal>) -> usize
    ensures { result ≡ get_or (reply_answer r).values 0 0 }
{
    r.unwrap_or(0)
}

pub fn report_values(r: Result<Totals, Refusal>) -> [usize; 6]
    ensures { result ≡ (report_answer r).values }
{
    match r {
        Ok(t) => [t.blocks, t.bytes, t.held, t.free, t.ready, t.waiting],
        Err(_) => [0, 0, 0, 0, 0, 0],
    }
}

pub fn report_totals(r: Result<Totals, Refusal>) -> Totals
    ensures { listed result ≡ (report_answer r).values }
{
    r.unwrap_or_default()
}
