//! Printing a script in its canonical form.

ghost use Rattle.std.specs.Prelude.{◌≡◌, ◌≤◌, ◌++◌, ◌∷◌, [], Some, None, Ok, length, map, codes, string_bytes, slice_get, IfOk};
ghost use Rattle.std.specs.List.{flat_map};
ghost use Rattle.posix_defs.specs.Canonical as spec;
ghost use Rattle.posix_defs.specs.Lines.{blank, newline};
ghost use Rattle.posix_defs.specs.Canonical.{line_text, words_text, further_words, word_text};
ghost use Rattle.posix_defs.specs.declared.said.Word.TheVariants.{Bare};
ghost use Rattle.script_print.specs.Printing.{Adds};

use crate::output::Output;
use crate::printing_words::{
    push_call, push_label, push_name, push_operand, push_register, push_test,
};
use kabi_types::{Chooser, Memory, Operand, Policy, Program, Script, Statement};
use std::alloc::Global;

/// The canonical text of a script: the lines of its settings, of who chooses among events, and of its programs, with one
/// blank between words. An error is want of memory.
pub fn canonical_text(alloc: Global, script: &Script) -> Result<String, Memory>
    ensures { IfOk result (λ text. string_bytes text ≡ spec.canonical script.now) }
{
    let mut out = Output::new(alloc);
    push_script(&mut out, script);
    out.finish()
}

/// Adds the text of a script.
fn push_script(out: &mut Output, script: &Script)
    ensures { Adds out.old (spec.canonical script.now) out.new }
{
    push_setting(out, "heap", script.heap);
    push_setting(out, "disk", u64::from(script.disk));
    push_setting(out, "steps", u64::from(script.steps));
    push_policy(out, script.policy);
    push_chooser(out, &script.chooser);
    push_programs(out, script.programs.items());
}

/// Adds the line of a setting that is a number.
fn push_setting(out: &mut Output, word: &str, number: u64)
    ensures { Adds out.old (line_text (Bare word.now ∷ spec.number_word number ∷ [])) out.new }
{
    out.push(word);
    out.push(" ");
    out.push_number(number);
    out.push("\n");
}

fn push_policy(out: &mut Output, policy: Policy)
    ensures { Adds out.old (line_text (Bare (codes "policy") ∷ Bare (spec.policy_text policy) ∷ [])) out.new }
{
    out.push("policy ");
    out.push(policy_word(policy));
    out.push("\n");
}

fn policy_word(policy: Policy) -> &'static str
    ensures { result.now ≡ spec.policy_text policy }
{
    match policy {
        Policy::Heaviest => "heaviest",
        Policy::Youngest => "youngest",
    }
}

fn push_chooser(out: &mut Output, chooser: &Chooser)
    ensures { Adds out.old (flat_map line_text (spec.chooser_lines chooser.now)) out.new }
{
    match chooser {
        Chooser::Plain => {}
        Chooser::Choices(choices) => {
            out.push("choices");
            push_numbers(out, choices.items());
            out.push("\n");
        }
        Chooser::Seed(seed) => push_setting(out, "seed", u64::from(*seed)),
    }
}

/// Adds numbers, a blank before each.
fn push_numbers(out: &mut Output, numbers: &[u32])
    ensures { Adds out.old (further_words (map spec.number_word numbers.now)) out.new }
{
    for number in numbers {
        out.push(" ");
        out.push_number(u64::from(*number));
    }
}

fn push_programs(out: &mut Output, programs: &[Program])
    ensures { Adds out.old (flat_map line_text (flat_map spec.program_lines programs.now)) out.new }
{
    for program in programs {
        push_program(out, program);
    }
}

fn push_program(out: &mut Output, program: &Program)
    ensures { Adds out.old (flat_map line_text (spec.program_lines program.now)) out.new }
{
    out.push("program ");
    push_name(out, program.name.items());
    out.push("\n");
    push_body(out, program.body.items());
    out.push("end\n");
}

/// Adds a line for each statement.
fn push_body(out: &mut Output, body: &[Statement])
    ensures { Adds out.old (flat_map line_text (map (spec.statement_words body.now) body.now)) out.new }
{
    for statement in body {
        push_statement(out, body, statement);
        out.push("\n");
    }
}

/// Adds a statement of a program with this body.
fn push_statement(out: &mut Output, body: &[Statement], statement: &Statement)
    ensures { Adds out.old (words_text (spec.statement_words body.now statement.now)) out.new }
{
    match statement {
        Statement::Set(register, value) => push_change(out, "set ", *register, *value),
        Statement::Add(register, value) => push_change(out, "add ", *register, *value),
        Statement::If {
            left,
            test,
            right,
            place,
        } => {
            push_test(out, *left, *test, *right);
            push_label(out, body, *place);
        }
        Statement::Jump(place) => {
            out.push("jump");
            push_label(out, body, *place);
        }
        Statement::Label(name) => {
            out.push("label ");
            push_name(out, name.items());
        }
        Statement::Loop(register, place) => {
            out.push("loop ");
            push_register(out, *register);
            push_label(out, body, *place);
        }
        Statement::Invoke {
            kind,
            operands,
            texts,
            first,
            second,
        } => {
            push_targets(out, *first, *second);
            push_call(out, *kind, operands.items(), texts.items());
        }
    }
}

/// Adds a statement that changes a register by a value, behind what it begins with.
fn push_change(out: &mut Output, begin: &str, register: u8, value: Operand)
    ensures { Adds out.old (begin.now ++ (word_text (spec.register_word register) ++ further_words (spec.operand_word value ∷ []))) out.new }
{
    out.push(begin);
    push_register(out, register);
    out.push(" ");
    push_operand(out, value);
}

/// Adds the registers that get a call's values, before the call.
fn push_targets(out: &mut Output, first: Option<u8>, second: Option<u8>)
    ensures { Adds out.old (flat_map (λ word. word_text word ++ blank) (spec.target_words first second)) out.new }
{
    match (first, second) {
        (None, _) => {}
        (Some(first), None) => {
            push_register(out, first);
            out.push(" = ");
        }
        (Some(first), Some(second)) => {
            push_register(out, first);
            out.push(" ");
            push_register(out, second);
            out.push(" = ");
        }
    }
}
