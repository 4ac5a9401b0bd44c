//! Copies of a script and of what it consists of.

ghost use Rattle.std.specs.Prelude.{◌≡◌, IfOk};

use crate::{
    Chooser, Memory, Numbers, Operands, Program, Programs, Script, Statement, Statements, Text,
    Texts,
};
use std::alloc::Global;

impl Numbers {
    fn copy(&self, alloc: Global) -> Result<Numbers, Memory>
        ensures { IfOk result (λ copy. copy ≡ self.now) }
    {
        Ok(Numbers::from_vec(self.items().to_vec(alloc)?))
    }
}

impl Operands {
    fn copy(&self, alloc: Global) -> Result<Operands, Memory>
        ensures { IfOk result (λ copy. copy ≡ self.now) }
    {
        Ok(Operands::from_vec(self.items().to_vec(alloc)?))
    }
}

impl Text {
    fn copy(&self, alloc: Global) -> Result<Text, Memory>
        ensures { IfOk result (λ copy. copy ≡ self.now) }
    {
        Ok(Text::from_vec(self.items().to_vec(alloc)?))
    }
}

impl Texts {
    fn copy(&self, alloc: Global) -> Result<Texts, Memory>
        ensures { IfOk result (λ copy. copy ≡ self.now) }
    {
        let mut texts = Vec::with_capacity(alloc, self.items().len())?;
        for text in self.items() {
            texts.push(text.copy(alloc)?)?;
        }
        Ok(Texts::from_vec(texts))
    }
}

impl Statement {
    fn copy(&self, alloc: Global) -> Result<Statement, Memory>
        ensures { IfOk result (λ copy. copy ≡ self.now) }
    {
        Ok(match self {
            Statement::Set(register, value) => Statement::Set(*register, *value),
            Statement::Add(register, value) => Statement::Add(*register, *value),
            Statement::If {
                left,
                test,
                right,
                place,
            } => Statement::If {
                left: *left,
                test: *test,
                right: *right,
                place: *place,
            },
            Statement::Jump(place) => Statement::Jump(*place),
            Statement::Label(name) => Statement::Label(name.copy()),
            Statement::Loop(register, place) => Statement::Loop(*register, *place),
            Statement::Invoke {
                kind,
                operands,
                texts,
                first,
                second,
            } => Statement::Invoke {
                kind: *kind,
                operands: operands.copy(alloc)?,
                texts: texts.copy(alloc)?,
                first: *first,
                second: *second,
            },
        })
    }
}

impl Statements {
    fn copy(&self, alloc: Global) -> Result<Statements, Memory>
        ensures { IfOk result (λ copy. copy ≡ self.now) }
    {
        let mut statements = Vec::with_capacity(alloc, self.items().len())?;
        for statement in self.items() {
            statements.push(statement.copy(alloc)?)?;
        }
        Ok(Statements::from_vec(statements))
    }
}

impl Program {
    fn copy(&self, alloc: Global) -> Result<Program, Memory>
        ensures { IfOk result (λ copy. copy ≡ self.now) }
    {
        Ok(Program {
            name: self.name.copy(),
            body: self.body.copy(alloc)?,
        })
    }
}

impl Programs {
    fn copy(&self, alloc: Global) -> Result<Programs, Memory>
        ensures { IfOk result (λ copy. copy ≡ self.now) }
    {
        let mut programs = Vec::with_capacity(alloc, self.items().len())?;
        for program in self.items() {
            programs.push(program.copy(alloc)?)?;
        }
        Ok(Programs::from_vec(programs))
    }
}

impl Chooser {
    fn copy(&self, alloc: Global) -> Result<Chooser, Memory>
        ensures { IfOk result (λ copy. copy ≡ self.now) }
    {
        Ok(match self {
            Chooser::Plain => Chooser::Plain,
            Chooser::Choices(numbers) => Chooser::Choices(numbers.copy(alloc)?),
            Chooser::Seed(seed) => Chooser::Seed(*seed),
        })
    }
}

impl Script {
    /// An equal script. `Memory` comes where the host has no memory left, and nothing else.
    pub fn copy(&self, alloc: Global) -> Result<Script, Memory>
        ensures { IfOk result (λ copy. copy ≡ self.now) }
    {
        Ok(Script {
            heap: self.heap,
            disk: self.disk,
            steps: self.steps,
            policy: self.policy,
            chooser: self.chooser.copy(alloc)?,
            programs: self.programs.copy(alloc)?,
        })
    }
}
