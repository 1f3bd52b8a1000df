//! Laws of the operators. The functions do nothing: their contracts are the laws.
ghost use Rattle.operator_laws.specs.Laws.{Commutes, ComparesAmounts, ComparesRound, ComparesTexts, DividesAsLongs};
ghost use Rattle.operator_laws.specs.Laws.{FollowsTable, GivesSoundOfOne, GivesSoundOfTwo, implications};
ghost use Rattle.std.specs.Cmp.{IsTotalOrder};
ghost use Rattle.std.specs.Cmp.Lexicographic.{slice_cmp};
ghost use Rattle.std.specs.Ordering.{nat_cmp, int_cmp};

use vb_value::Op2;

/// The order of the operands of `+` and `*` does not matter where neither is a text or refused.
pub fn sums_and_products_commute()
    ensures sum { Commutes Op2.Add }
    ensures product { Commutes Op2.Multiply }
{}

/// The order of the operands of `And`, `Or`, `Xor` and `Eqv` does not matter where neither is a text or refused.
pub fn logic_commutes()
    ensures and { Commutes Op2.And }
    ensures or { Commutes Op2.Or }
    ensures xor { Commutes Op2.Xor }
    ensures eqv { Commutes Op2.Eqv }
{}

/// Numbers compare in the order of their values, and texts in that of their characters' numbers.
pub fn comparison_is_an_order()
    ensures amounts { ComparesAmounts }
    ensures amount_order { IsTotalOrder int_cmp }
    ensures texts { ComparesTexts }
    ensures text_order { IsTotalOrder (slice_cmp nat_cmp) }
    ensures turned { ComparesRound }
{}

/// `\` and `Mod` give a quotient and its rest.
pub fn division_leaves_a_rest()
    ensures { DividesAsLongs }
{}

/// `Imp` of Booleans and Null is the table of the reference.
pub fn implication_is_its_table()
    ensures { FollowsTable Op2.Imp implications }
{}

/// What the operators give of sound values is sound.
pub fn results_are_sound()
    ensures one { GivesSoundOfOne }
    ensures two { GivesSoundOfTwo }
{}
