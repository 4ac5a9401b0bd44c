//! What one statement does to a control.

ghost use Rattle.std.specs.Prelude.{◌≡◌, ◌<◌, true, pos, ◌-ℤ◌, int_lt, IfSome};
ghost use Rattle.kabi_types.specs.Reply.{first_of, second_of};
ghost use Rattle.posix_defs.specs.Control as spec;
ghost use Rattle.posix_defs.specs.ValidScript.{IsRegister};
ghost use Rattle.prog_ctl.specs.Runnable.{IsOperand, IsRunnableAt, Moves};

use kabi_types::{Control, Operand, Reply, Statement, Test};

/// What a register holds.
fn register_of(control: &Control, register: u8) -> i64
    requires { IsRegister register }
    ensures { result ≡ spec.register_of control.now register }
{
    control.regs[register as usize]
}

/// What a value is now.
pub fn value_of(control: &Control, operand: Operand) -> i64
    requires { IsOperand operand }
    ensures { result ≡ spec.value_of control.now operand }
{
    match operand {
        Operand::Reg(register) => register_of(control, register),
        Operand::Number(value) => value,
    }
}

/// Whether two values pass a test.
fn passes(test: Test, a: i64, b: i64) -> bool
    ensures { result ≡ spec.passes test a b }
{
    match test {
        Test::Eq => a <= b && b <= a,
        Test::Ne => !(a <= b && b <= a),
        Test::Lt => a < b,
        Test::Le => a <= b,
    }
}

/// Sets a register and goes on to the next statement.
fn set_and_go(control: &mut Control, register: u8, value: i64)
    requires register { IsRegister register }
    requires place { control.old.place < 4294967295 }
    ensures { control.new ≡ spec.forward (spec.with_register control.old register value) }
{
    control.regs[register as usize] = value;
    control.place += 1;
}

/// Does a local statement; false where the statement makes a call.
pub fn local(control: &mut Control, statement: &Statement) -> bool
    requires runnable { IsRunnableAt control.old.place statement.now }
    requires place { control.old.place < 4294967295 }
    ensures { Moves result control.old control.new (spec.local control.old statement.now) }
{
    match statement {
        Statement::Set(register, value) => {
            let value = value_of(control, *value);
            set_and_go(control, *register, value);
            true
        }
        Statement::Add(register, value) => {
            let sum = register_of(control, *register).wrapping_add(value_of(control, *value));
            set_and_go(control, *register, sum);
            true
        }
        Statement::If {
            left,
            test,
            right,
            place,
        } => {
            if passes(*test, value_of(control, *left), value_of(control, *right)) {
                control.place = *place;
            } else {
                control.place += 1;
            }
            true
        }
        Statement::Jump(place) => {
            control.place = *place;
            true
        }
        Statement::Loop(register, _) if 0 < register_of(control, *register) => false,
        Statement::Label(_) | Statement::Loop(_, _) => {
            control.place += 1;
            true
        }
        Statement::Invoke { .. } => false,
    }
}

/// A value goes to a register, if one is named.
fn into(control: &mut Control, register: Option<u8>, value: i64)
    requires { IfSome register IsRegister }
    ensures { control.new ≡ spec.into control.old register value }
{
    if let Some(register) = register {
        control.regs[register as usize] = value;
    }
}

/// The values of a reply go to the registers that are named, and the next statement follows.
pub fn take_reply(control: &mut Control, reply: &Reply, first: Option<u8>, second: Option<u8>)
    requires registers { IfSome first IsRegister × IfSome second IsRegister }
    requires place { control.old.place < 4294967295 }
    ensures { control.new ≡ spec.forward (spec.into (spec.into control.old first (first_of reply.now)) second (second_of reply.now)) }
{
    into(control, first, reply.first());
    into(control, second, reply.second());
    control.place += 1;
}

/// A loop goes back, and its register falls by one.
pub fn go_back(control: &mut Control, register: u8, place: u32)
    requires register { IsRegister register }
    requires above { int_lt (pos 0) (spec.register_of control.old register) ≡ true }
    ensures { control.new ≡ spec.at_place (spec.with_register control.old register (spec.register_of control.old register -ℤ pos 1)) place }
{
    let count = register_of(control, register);
    control.regs[register as usize] = count - 1;
    control.place = place;
}
