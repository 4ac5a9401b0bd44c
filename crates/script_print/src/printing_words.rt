//! Printing the words of a statement.

ghost use Rattle.std.specs.Prelude.{codes, ◌≡◌, ◌++◌, ◌∷◌, [], Some, None, map, slice_get};
ghost use Rattle.std.specs.List.{flat_map};
ghost use Rattle.posix_defs.specs.Canonical as spec;
ghost use Rattle.posix_defs.specs.Canonical.{words_text, further_words, word_text};
ghost use Rattle.posix_defs.specs.ScriptLines as lines;
ghost use Rattle.posix_defs.specs.declared.said.Word.TheVariants.{Bare, Quoted};
ghost use Rattle.kabi_types.specs.Words.{word_of};
ghost use Rattle.script_print.specs.Printing.{Adds};

use crate::output::Output;
use kabi_types::{CallKind, Operand, Statement, Test, Text};
use posix_defs::Shape;
use script_words::{is_within, shape_of};

/// Adds a byte of a text: itself where it can be printed and is neither a quote nor a backslash, else an escape.
fn push_byte(out: &mut Output, byte: u8)
    ensures { Adds out.old (spec.shown byte) out.new }
{
    if byte == b'\n' {
        out.push("\\n");
    } else if byte == b'"' || byte == b'\\' {
        out.push_escape(byte);
    } else if is_within(b' ', b'~', byte) {
        out.push_char(byte);
    } else {
        out.push_escape(byte);
    }
}

fn push_bytes(out: &mut Output, bytes: &[u8])
    ensures { Adds out.old (spec.shown_bytes bytes.now) out.new }
{
    for byte in bytes {
        push_byte(out, *byte);
    }
}

/// Adds a name. A byte that no name may have is printed as in a text.
pub fn push_name(out: &mut Output, name: &[u8])
    ensures { Adds out.old (word_text (spec.name_word name.now)) out.new }
{
    push_bytes(out, name);
}

/// Adds the name of a register.
pub fn push_register(out: &mut Output, register: u8)
    ensures { Adds out.old (word_text (spec.register_word register)) out.new }
{
    out.push("r");
    out.push_number(u64::from(register));
}

/// Adds a register or a number.
pub fn push_operand(out: &mut Output, operand: Operand)
    ensures { Adds out.old (word_text (spec.operand_word operand)) out.new }
{
    match operand {
        Operand::Reg(register) => push_register(out, register),
        Operand::Number(value) => out.push_signed(value),
    }
}

fn test_word(test: Test) -> &'static str
    ensures { result.now ≡ spec.test_text test }
{
    match test {
        Test::Eq => "==",
        Test::Ne => "!=",
        Test::Lt => "<",
        Test::Le => "<=",
    }
}

/// Adds an `if` up to its label.
pub fn push_test(out: &mut Output, left: Operand, test: Test, right: Operand)
    ensures { Adds out.old (words_text (Bare (codes "if") ∷ spec.operand_word left ∷ Bare (spec.test_text test) ∷ spec.operand_word right ∷ [])) out.new }
{
    out.push("if ");
    push_operand(out, left);
    out.push(" ");
    out.push(test_word(test));
    out.push(" ");
    push_operand(out, right);
}

/// The name of the label at a place; none where no label stands there.
fn label_name(body: &[Statement], place: u32) -> &[u8]
    ensures { result.now ≡ spec.label_name (slice_get body.now place) }
{
    match body.get(place as usize) {
        Some(Statement::Label(name)) => name.items(),
        _ => &[],
    }
}

/// Adds a blank, and the name of the label at a place.
pub fn push_label(out: &mut Output, body: &[Statement], place: u32)
    ensures { Adds out.old (further_words (spec.label_word body.now place ∷ [])) out.new }
{
    out.push(" ");
    push_name(out, label_name(body, place));
}

/// Adds values, a blank before each.
fn push_values(out: &mut Output, values: &[Operand])
    ensures { Adds out.old (further_words (map spec.operand_word values.now)) out.new }
{
    for value in values {
        out.push(" ");
        push_operand(out, *value);
    }
}

/// Adds texts in quotes, a blank before each.
fn push_texts(out: &mut Output, texts: &[Text])
    ensures { Adds out.old (further_words (map Quoted texts.now)) out.new }
{
    for text in texts {
        out.push(" \"");
        push_bytes(out, text.items());
        out.push("\"");
    }
}

/// Adds a call: its word, and its operands in the order of its fields.
pub fn push_call(out: &mut Output, kind: CallKind, values: &[Operand], texts: &[Text])
    ensures { Adds out.old (words_text (Bare (word_of kind) ∷ spec.operand_words (lines.shape_of kind) values.now texts.now)) out.new }
{
    out.push(kind.word());
    if shape_of(kind) == Shape::PathValue {
        push_texts(out, texts);
        push_values(out, values);
    } else {
        push_values(out, values);
        push_texts(out, texts);
    }
}
