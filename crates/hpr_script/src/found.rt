//! What was read so far.
ghost use Rattle.std.specs.Prelude.{◌≡◌, [], ◌∷◌, ◌++◌, IfOk, OnOk};
ghost use Rattle.hpr_scan.specs.Steps.{Steps};
ghost use Rattle.hpr_script.specs.Machine as machine;

use crate::stage::{Holder, Plain};
use hpr_edit::{Command, FinalNames};
use hpr_scan::Fault;
use hpr_syntax::Content;
use hpr_terms::{Name, NoMemory};
use std::alloc::Global;
use std::marker::Model;
use std::mem;

/// Commands in their order. A contract sees their list.
#[derive(Drop)]
pub struct Commands {
    commands: Vec<Command>,
}

impl Model for Commands {
    ghost use Rattle.std.specs.Prelude.{List};
    ghost use Rattle.std.specs.Coded.{codes};
    ghost use Rattle.hpr_terms.specs.Private.TermCode.{term_coded};
    ghost use Rattle.hpr_edit.specs.declared.command.Command.{Command};

    ghost Value = { List Command };

    ghost coded = { Prim.hlevel (codes, term_coded) };

    ghost view = { λ c. c.commands.items };
}

impl Commands {
    fn new(alloc: Global) -> Commands
        ensures { result ≡ [] }
    {
        Commands {
            commands: Vec::new(alloc),
        }
    }

    fn push(&mut self, command: Command) -> Result<(), NoMemory>
        ensures { OnOk result (self.new ≡ self.old ++ (command ∷ [])) }
    {
        self.commands.push(command)?;
        Ok(())
    }

    fn into_vec(self) -> Vec<Command>
        ensures { result.items ≡ self }
    {
        let Commands { commands } = self;
        commands
    }
}

/// What was read so far.
pub struct Found {
    /// The commands whose `;` was read.
    pub commands: Commands,
    /// The variables of `finals`, while they are read.
    pub names: FinalNames,
    /// The last variable of `finals`, while no sign that ends it was read.
    pub last: Option<Name>,
}

/// All of it is dropped in one call.
impl Drop for Found {
    fn drop(self) {
        let Found {
            commands: _,
            names: _,
            last: _,
        } = self;
    }
}

fn no_names(alloc: Global) -> FinalNames
    ensures { result ≡ [] }
{
    FinalNames::new(Vec::new(alloc))
}

fn filled(holder: Holder, content: Content) -> Command
    ensures { result ≡ machine.filled holder content }
{
    match holder {
        Holder::Insert(place) => Command::Insert(place, content),
        Holder::Set(tag) => Command::Set(tag, content),
        Holder::Wrap(tag) => Command::Wrap(tag, content),
    }
}

impl Found {
    /// Nothing was read.
    pub fn new(alloc: Global) -> Found
        ensures { result ≡ machine.nothing_found }
    {
        Found {
            commands: Commands::new(alloc),
            names: no_names(alloc),
            last: None,
        }
    }

    /// The commands that were read.
    pub fn into_commands(self) -> Vec<Command>
        ensures { result.items ≡ self.commands }
    {
        let Found {
            commands,
            names: _,
            last: _,
        } = self;
        commands.into_vec()
    }

    fn with_command(self, command: Command) -> Result<Found, NoMemory>
        ensures { IfOk result (λ f. f ≡ machine.with_command command self) }
    {
        let mut found = self;
        found.commands.push(command)?;
        Ok(found)
    }

    /// A command with this content was read.
    pub fn with_content(self, holder: Holder, content: Content) -> Result<Found, NoMemory>
        ensures { IfOk result (λ f. f ≡ machine.with_command (machine.filled holder content) self) }
    {
        self.with_command(filled(holder, content))
    }

    fn with_finals(self, alloc: Global) -> Result<Found, NoMemory>
        ensures { IfOk result (λ f. f ≡ machine.with_finals self) }
    {
        let mut found = self;
        let names = mem::replace(&mut found.names, no_names(alloc));
        found.commands.push(Command::Finals(names))?;
        Ok(found)
    }

    /// A command without a content was read.
    pub fn with_plain(self, alloc: Global, plain: Plain) -> Result<Found, NoMemory>
        ensures { IfOk result (λ f. f ≡ machine.with_plain plain self) }
    {
        match plain {
            Plain::Delete(tag) => self.with_command(Command::Delete(tag)),
            Plain::Move(tag, place) => self.with_command(Command::Move(tag, place)),
            Plain::Unwrap(tag) => self.with_command(Command::Unwrap(tag)),
            Plain::Finals => self.with_finals(alloc),
        }
    }

    /// No name of `finals` was read.
    pub fn without_names(self, alloc: Global) -> Found
        ensures { result ≡ machine.without_names self }
    {
        let mut found = self;
        found.names = no_names(alloc);
        found
    }

    /// The last variable of `finals` is this one.
    pub fn with_last(self, name: Name) -> Found
        ensures { result ≡ machine.with_last name self }
    {
        let mut found = self;
        found.last = Some(name);
        found
    }

    /// A sign that ends the last variable of `finals` was read.
    pub fn with_last_ended(self) -> Result<Found, NoMemory>
        ensures { IfOk result (λ f. f ≡ machine.with_last_ended self) }
    {
        let mut found = self;
        if let Some(name) = mem::replace(&mut found.last, None) {
            found.names.push(name)?;
        }
        Ok(found)
    }

    /// The last variable of `finals` is the array of the name that it was. `Refused` comes exactly where it is no plain
    /// name.
    pub fn with_array(self, alloc: Global) -> Result<Found, Fault>
        ensures { Steps (machine.with_array self) result }
    {
        let mut found = self;
        let Some(name) = mem::replace(&mut found.last, None) else {
            return Err(Fault::Refused);
        };
        if !name.is_plain() {
            return Err(Fault::Refused);
        }
        let array = Name::array(alloc, &name)?;
        Ok(found.with_last(array))
    }
}
