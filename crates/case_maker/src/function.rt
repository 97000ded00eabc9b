//! One function of a program.

ghost use Rattle.std.specs.Prelude.{◌≡◌, ◌<◌, ◌+◌, ◌%◌, ◌^◌, cond, List, [], IfOk, string_bytes};
ghost use Rattle.case_maker.specs.Cases.{form_line, function_text, target_line};

use faults::Memory;
use std::alloc::Global;

/// The function of this number.
pub(crate) fn function_text(alloc: Global, index: u32, is_target: bool) -> Result<String, Memory>
    requires { index < 1500 }
    ensures { IfOk result (λ text. string_bytes text ≡ function_text index is_target) }
{
    let first = form_line(index);
    let second = form_line(index + 1);
    let third = form_line(index + 2);
    let target = target_line(is_target);
    let text = format!(in alloc;
        "int f{index}(int a, char b) {{\n{first}{second}{third}{target}}}\n"
    )?;
    Ok(text)
}

/// The line of the form that comes round with this number.
fn form_line(number: u32) -> &'static str
    ensures { result.now ≡ form_line (number % 4) }
{
    match number % 4 {
        0 => "  int c = a * 2;\n",
        1 => "  if (a) { b = f0(a, 1); } else { return b; }\n",
        2 => "  while (b - 1) { b = (a + b) / 3; } // loop\n",
        _ => "  /* note */ return \"s\" + a;\n",
    }
}

/// The target line, in the function that has it.
fn target_line(is_target: bool) -> &'static str
    ensures { result.now ≡ cond is_target target_line [] }
{
    if is_target {
        "  Q = f0(a, (b + \"Z\"));\n"
    } else {
        ""
    }
}
