//! Parts of code.
ghost use Rattle.std.specs.Option.{option_map};
ghost use Rattle.std.specs.Prelude.{◌≡◌};
ghost use Rattle.mid_program.specs.Mid.{End};
ghost use Rattle.mid_program.specs.ViewCode.{before, view, views};
ghost use Rattle.lower_quick.specs.Operands.{binary_in, let_in, number_of, one_code, three_codes, two_codes};
ghost use Rattle.lower_model.specs.Quick.{is_bound};

use mid_program::{Arithmetic, Code, Operand, Operation};

/// The code that an operand is.
fn code_in(operand: &Operand) -> Option<&Code>
    ensures { option_map (λ code. view code.now) result ≡ one_code (before operand.now End) }
{
    match operand {
        Operand::Code(code) => Some(code),
        Operand::Constant(_) | Operand::Fresh => None,
    }
}

/// The code that two operands are.
fn codes_in<'a>(left: &'a Operand, right: &'a Operand) -> Option<(&'a Code, &'a Code)>
    ensures { option_map (λ both. (view both.0.now, view both.1.now)) result
        ≡ two_codes (before left.now (before right.now End)) }
{
    match (left, right) {
        (Operand::Code(left), Operand::Code(right)) => Some((left, right)),
        _ => None,
    }
}

/// The code that three operands are.
fn codes_of<'a>(
    first: &'a Operand,
    second: &'a Operand,
    third: &'a Operand,
) -> Option<(&'a Code, &'a Code, &'a Code)>
    ensures { option_map (λ all. (view all.0.now, view all.1.now, view all.2.now)) result
        ≡ three_codes (before first.now (before second.now (before third.now End))) }
{
    match (first, second, third) {
        (Operand::Code(first), Operand::Code(second), Operand::Code(third)) => {
            Some((first, second, third))
        }
        _ => None,
    }
}

/// The operand, where there is one and it is code.
fn one_code(operands: &[Operand]) -> Option<&Code>
    ensures { option_map (λ code. view code.now) result ≡ one_code (views operands.now) }
{
    if operands.len() != 1 {
        return None;
    }
    code_in(&operands[0])
}

/// The operands, where there are two and both are code.
pub(crate) fn two_codes(operands: &[Operand]) -> Option<(&Code, &Code)>
    ensures { option_map (λ both. (view both.0.now, view both.1.now)) result
        ≡ two_codes (views operands.now) }
{
    if operands.len() != 2 {
        return None;
    }
    codes_in(&operands[0], &operands[1])
}

/// The operands, where there are three and all are code.
pub(crate) fn three_codes(operands: &[Operand]) -> Option<(&Code, &Code, &Code)>
    ensures { option_map (λ all. (view all.0.now, view all.1.now, view all.2.now)) result
        ≡ three_codes (views operands.now) }
{
    if operands.len() != 3 {
        return None;
    }
    codes_of(&operands[0], &operands[1], &operands[2])
}

/// What is kept, and the code after it.
pub(crate) fn let_in(code: &Code) -> Option<(&Code, &Code)>
    ensures { option_map
        (λ parts. (view parts.0.now, view parts.1.now)) result ≡ let_in (view code.now) }
{
    match code {
        Code::Let(kept, body) => Some((kept, body)),
        _ => None,
    }
}

/// The operator and the operands of arithmetic with two that the module carries out.
pub(crate) fn binary_in(code: &Code) -> Option<(Arithmetic, &Code, &Code)>
    ensures { option_map (λ parts. (parts.0, view parts.1.now, view parts.2.now)) result
        ≡ binary_in (view code.now) }
{
    let Code::Do(operation, operands) = code else {
        return None;
    };
    match operation {
        Operation::Inline(op) => {
            let (left, right) = two_codes(operands)?;
            Some((*op, left, right))
        }
        Operation::Host(_) | Operation::AsNumber | Operation::FieldNumber => None,
    }
}

/// The code whose number code is.
pub(crate) fn number_of(code: &Code) -> Option<&Code>
    ensures { option_map (λ operand. view operand.now) result ≡ number_of (view code.now) }
{
    let Code::Do(operation, operands) = code else {
        return None;
    };
    match operation {
        Operation::AsNumber => one_code(operands),
        Operation::Host(_) | Operation::Inline(_) | Operation::FieldNumber => None,
    }
}

/// Whether code is what was kept with so many others after it.
pub(crate) fn is_bound(code: &Code, moves: bool, after: usize) -> bool
    ensures { result ≡ is_bound moves after (view code.now) }
{
    match code {
        Code::Bound(moved, others) => *moved == moves && *others == after,
        _ => false,
    }
}
