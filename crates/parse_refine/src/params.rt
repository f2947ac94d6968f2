//! The parameters of an arrow, which were read as the elements of a parenthesis (15.3).
ghost use Rattle.std.specs.Prelude.{◌≡◌, false, true, All, IfOk, map, reverse};
ghost use Rattle.tree_spec.specs.Tree.{trees_by};
ghost use Rattle.tree_nodes.specs.Fits.{fits_expr_or_spread};
ghost use Rattle.tree_nodes.specs.Placed.{holds_pat, inner};
ghost use Rattle.tree_nodes.specs.View.{view_expr_or_spread};
ghost use Rattle.grammar_spec.specs.Reader.Cover.{last_rests, to_items};
ghost use Rattle.grammar_spec.specs.Reader.Expressions.{is_read};
ghost use Rattle.parse_state.specs.Answers.{Gives};
ghost use Rattle.parse_operands.specs.Lists.{arguments_of, FitArguments};
ghost use Rattle.parse_refine.specs.Items.{parameters_of};

use crate::items::{element, is_rest};
use crate::made;
use crate::questions::is_element;
use base_token::DUMMY_SP;
use parse_operands::lists::Arguments;
use parse_state::Failure;
use std::alloc::Global;
use tree_nodes::{ExprOrSpread, PatBox};

/// Whether the last element is spread.
#[tactic(auto, using(crate::proofs::Lasts::rests_at, crate::proofs::Lasts::rests_none))]
fn ends_in_rest(items: &[ExprOrSpread]) -> bool
    ensures { result ≡ last_rests (map (view_expr_or_spread inner) items.now) }
{
    match items.last() {
        Some(last) => last.spread.is_some(),
        None => false,
    }
}

/// Elements as patterns that bind, of which a rest stands last.
#[tactic(auto, using(crate::proofs::Rows::items), unfolding(crate::specs::Items::items_from, crate::specs::Items::item_by))]
fn all_params(
    alloc: Global,
    commas: &[u32],
    items: Vec<ExprOrSpread>,
) -> Result<Vec<PatBox>, Failure>
    ensures value { Gives (λ x. trees_by (λ y. inner y.part.value) x.items) 0 result
        (to_items false true (reverse commas.now)
        (trees_by (view_expr_or_spread inner) items.items)) }
    ensures fits { IfOk result (λ x. All (λ y. holds_pat y.part.value) x.items) }
{
    let mut left = items.len();
    let mut params = Vec::new(alloc);
    'params: for x in items {
        left -= 1;
        if left > 0 && x.spread.is_some() {
            return Err(made::refused(x.span));
        }
        params.push(element(alloc, true, commas, x)?)?;
    }
    Ok(params)
}

/// Whether elements are patterns that bind, of which a rest stands last.
#[tactic(auto, using(crate::proofs::Rows::more_left), unfolding(crate::specs::Items::item_by))]
fn are_items(commas: &[u32], items: &[ExprOrSpread]) -> bool
    requires { All (λ x. fits_expr_or_spread (λ p. p) x) items.now }
    ensures { result ≡ is_read (to_items false true (reverse commas.now)
        (trees_by (view_expr_or_spread inner) items.now)) }
{
    let mut left = items.len();
    for x in items {
        left -= 1;
        // For the proof: two tests in place of one `||`, so that each way out has a goal of its own.
        if left > 0 && is_rest(x) {
            return false;
        }
        if !is_element(commas, x) {
            return false;
        }
    }
    true
}

/// Whether what stands between parentheses may be the parameters of an arrow.
#[tactic(auto, using(crate::proofs::Told::params_told, parse_operands::proofs::Packs::packed))]
pub fn are_params(commas: &[u32], list: &Arguments) -> bool
    requires { FitArguments list.now }
    ensures { result ≡ is_read (parameters_of (reverse commas.now) (arguments_of list.now)) }
{
    if list.comma && ends_in_rest(list.items.as_slice()) {
        return false;
    }
    are_items(commas, list.items.as_slice())
}

/// What stands between parentheses, as the parameters of an arrow: `parameters_of` is what is read of them, without a stream.
#[tactic(auto, using(crate::proofs::Rows::items, crate::proofs::Rows::unpacked))]
pub fn params(alloc: Global, commas: &[u32], list: Arguments) -> Result<Vec<PatBox>, Failure>
    ensures value { Gives (λ x. map (λ y. inner y.part.value) x.items) 0 result
        (parameters_of (reverse commas.now) (arguments_of list)) }
    ensures fits { IfOk result (λ x. All (λ y. holds_pat y.part.value) x.items) }
{
    if list.comma && ends_in_rest(list.items.as_slice()) {
        return Err(made::refused(DUMMY_SP));
    }
    all_params(alloc, commas, list.items)
}
