// Sizes and cheapest forms.
ghost use Rattle.egraph.specs.Answers.{count_says};
ghost use Rattle.extract.specs.Cost.{CostSays};
ghost use Rattle.extract.specs.Form.{FormSays, form_says};
ghost use Rattle.capi.specs.Answered.{Answered};

use super::Reply;
use language::Id;

// The least AstSize of any form in the id's class.
#[unsafe(no_mangle)]
pub extern "C" fn rimo_find_best_cost(ws: &mut [u32], id: u32) -> Reply
    ensures { Answered (λ a. CostSays ws.old id a ws.new) count_says result }
{
    Reply::from(extract::find_best_cost(ws, Id(id)))
}

// The least size, and how many words of the list were written: a form of that size.
#[unsafe(no_mangle)]
pub extern "C" fn rimo_find_best(ws: &mut [u32], id: u32, list: &mut [u32]) -> Reply
    ensures { Answered (λ a. FormSays ws.old id list.old a ws.new list.new) form_says result }
{
    Reply::from(extract::find_best(ws, Id(id), list))
}
