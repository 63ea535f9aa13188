//! A query with a rank as the only source of a select.
ghost use Rattle.bind_names.specs.declared.fault.BindFault.TheVariants as f;
ghost use Rattle.std.specs.Prelude.{◌≡◌, ◌<◌, Ok, Err, length, map, option_map, IfOk, IfSome, IsErrOf};
ghost use Rattle.ct_value.specs.declared.codes.ScriptCode.{ScriptCode};
ghost use Rattle.sql_syntax.specs.View.{select_view};
ghost use Rattle.query_answer.specs.Answer as a;
ghost use Rattle.binding.specs.Queries as q;
ghost use Rattle.bind_forms.specs.Views.{conjunct_view, top_view};
ghost use Rattle.bind_nested.specs.RankViews.{framed_view, list_view};

use crate::first::{first_ranked, unbounded};
use crate::list::RankedList;
use bind_clauses::{Relation, renamed};
use bind_forms::{Conjuncts, Top, is_kept, top_of};
use bind_names::BindFault;
use ct_catalog::Sources;
use ct_value::Text;
use sql_syntax::Select;
use std::alloc::Global;

/// The columns in reach, and which conjunct of the WHERE is spent on them, counted from 0.
#[derive(Drop)]
pub struct Framed {
    pub relation: Relation,
    pub spent: Option<usize>,
}

// By the conjunct that bounds the rank, if there is one.
fn bounded_by(
    alloc: Global,
    free: bool,
    sources: &Sources,
    outer: &Select,
    alias: &Option<Text>,
    list: RankedList<'_>,
    conjuncts: &Conjuncts<'_>,
    top: Option<Top>,
) -> Result<Framed, BindFault>
    requires all { map conjunct_view conjuncts.now ≡ a.select_conjuncts (select_view outer.now) }
    requires there { IfSome top (λ top. top.conjunct < length conjuncts.now) }
    ensures ok { IfOk result (λ x. q.bounded free sources.now (select_view outer.now) (record { alias = alias.now; list = list_view list.entry }) (option_map top_view top) ≡ Ok (framed_view x)) }
    ensures refused { (code : ScriptCode) → IsErrOf result (f.Refused code) → q.bounded free sources.now (select_view outer.now) (record { alias = alias.now; list = list_view list.entry }) (option_map top_view top) ≡ Err code }
{
    match top {
        None => {
            let relation = unbounded(alloc, free, list)?;
            Ok(Framed {
                relation: renamed(alloc, alias, relation)?,
                spent: None,
            })
        }
        Some(top) => {
            let kept = is_kept(sources, alias, list.list, outer, conjuncts, top.conjunct);
            let relation = first_ranked(alloc, top.bound, kept, list)?;
            Ok(Framed {
                relation: renamed(alloc, alias, relation)?,
                spent: Some(top.conjunct),
            })
        }
    }
}

/// What a select over these tables reads whose only source is a query with a rank, under an alias: where one of the conjuncts of its WHERE bounds the
/// rank, the first rows.
pub fn bounded(
    alloc: Global,
    free: bool,
    sources: &Sources,
    outer: &Select,
    alias: &Option<Text>,
    list: RankedList<'_>,
    conjuncts: &Conjuncts<'_>,
) -> Result<Framed, BindFault>
    requires { map conjunct_view conjuncts.now ≡ a.select_conjuncts (select_view outer.now) }
    ensures ok { IfOk result (λ x. q.framed free sources.now (select_view outer.now) (q.Only (record { alias = alias.now; list = list_view list.entry })) ≡ Ok (framed_view x)) }
    ensures refused { (code : ScriptCode) → IsErrOf result (f.Refused code) → q.framed free sources.now (select_view outer.now) (q.Only (record { alias = alias.now; list = list_view list.entry })) ≡ Err code }
{
    let top = top_of(alloc, alias, &list.input.scope, list.list, conjuncts)?;
    bounded_by(alloc, free, sources, outer, alias, list, conjuncts, top)
}
