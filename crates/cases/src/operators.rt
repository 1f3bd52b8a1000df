//! Operators as cases write them.

use crate::notation::write_outcome;
use case_files::{Answer, CaseStop};
use vb_ops::{apply1, apply2};
use vb_value::{Op1, Op2, Value};

/// The operator on two values that is written so, if one is.
pub fn operator(sign: &str) -> Option<Op2> {
    match sign {
        "*" => Some(Op2::Multiply),
        "\\" => Some(Op2::Divide),
        "Mod" => Some(Op2::Modulo),
        "+" => Some(Op2::Add),
        "-" => Some(Op2::Subtract),
        "&" => Some(Op2::Join),
        "=" => Some(Op2::Equal),
        "<>" => Some(Op2::Unequal),
        "<" => Some(Op2::Less),
        ">" => Some(Op2::Greater),
        "<=" => Some(Op2::AtMost),
        ">=" => Some(Op2::AtLeast),
        "Is" => Some(Op2::Is),
        "And" => Some(Op2::And),
        "Or" => Some(Op2::Or),
        "Xor" => Some(Op2::Xor),
        "Eqv" => Some(Op2::Eqv),
        "Imp" => Some(Op2::Imp),
        _ => None,
    }
}

/// Writes what an operator gives.
pub fn write_of_operator(out: &mut Answer, sign: &str, values: &[Value]) {
    match (sign, values, operator(sign)) {
        ("-", [value], _) => write_outcome(out, &apply1(Op1::Minus, value)),
        ("Not", [value], _) => write_outcome(out, &apply1(Op1::Not, value)),
        (_, [a, b], Some(op)) => {
            let outcome = apply2(out.alloc(), op, a, b);
            write_outcome(out, &outcome);
        }
        _ => out.stop(CaseStop::Unreadable),
    }
}
