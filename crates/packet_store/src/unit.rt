//! What a text, or a start procedure, is compiled to.

ghost use Rattle.std.specs.Prelude.{◌≡◌};
ghost use Rattle.code_gen.specs.Codes.{IsCodeOf};
ghost use Rattle.packet_store.specs.Units as spec;
ghost use Rattle.units.specs.Sound.{IsSoundUnit};

use crate::below::of_code_form::Code;
use std::marker::Model;
use std::mem;
use units::Compiled;

/// What has a meaning, with a code of which nothing but validity is known.
#[derive(Drop)]
pub struct Loaded {
    compiled: Compiled,
    code: Code,
}

/// What was compiled here: its code is that of what it means.
#[derive(Drop)]
pub struct Unit {
    compiled: Compiled,
    code: Code,
}

impl Model for Loaded {
    ghost use Rattle.units.specs.declared.unit.Compiled.{Compiled};
    ghost use Rattle.std.specs.Coded.{codes};
    ghost use Rattle.packet_store.specs.Below.elan_names.specs.contracts.interface.Interface as interfaces;
    ghost use Rattle.elan_scope.specs.contracts.env.Env as envs;
    ghost use Rattle.elan_types.specs.contracts.core_phrase.Core as cores;
    ghost use Rattle.packet_store.specs.Units.{IsUnit};

    ghost Value = { Compiled };

    ghost coded = { Prim.hlevel (codes, envs.the_row.coded, cores.the_row.coded, interfaces.the_row.coded) };

    ghost view = { λ unit. unit.compiled };

    ghost invariant = { λ unit. IsUnit unit.compiled };
}

impl Model for Unit {
    ghost use Rattle.code_gen.specs.Codes.{IsCodeOf};
    ghost use Rattle.units.specs.declared.unit.Compiled.{Compiled};
    ghost use Rattle.std.specs.Coded.{codes};
    ghost use Rattle.packet_store.specs.Below.elan_names.specs.contracts.interface.Interface as interfaces;
    ghost use Rattle.elan_scope.specs.contracts.env.Env as envs;
    ghost use Rattle.elan_types.specs.contracts.core_phrase.Core as cores;
    ghost use Rattle.packet_store.specs.Units.{IsUnit};

    ghost Value = { Compiled };

    ghost coded = { Prim.hlevel (codes, envs.the_row.coded, cores.the_row.coded, interfaces.the_row.coded) };

    ghost view = { λ unit. unit.compiled };

    ghost invariant = { λ unit. IsUnit unit.compiled × IsCodeOf unit.compiled.core unit.code };
}

impl Loaded {
    /// The unit of what has this meaning, with some code.
    pub fn of(compiled: Compiled, code: Code) -> Loaded
        requires { spec.IsUnit compiled }
        ensures { result ≡ compiled }
    {
        Loaded { compiled, code }
    }

    /// Lets it go, with all its parts.
    pub fn let_go(self) {
        mem::drop(self);
    }

    /// What it is compiled from and to, and its code.
    pub fn parts(self) -> (Compiled, Code)
        ensures compiled { result.0 ≡ self }
        ensures unit { spec.IsUnit result.0 }
    {
        let Loaded { compiled, code } = self;
        (compiled, code)
    }

    /// What it is compiled from and to, lent.
    pub fn compiled(&self) -> &Compiled
        ensures compiled { result.now ≡ self.now }
        ensures unit { spec.IsUnit result.now }
        ensures sound { IsSoundUnit result.now }
    {
        &self.compiled
    }

    /// Its code, lent.
    pub fn code(&self) -> &Code {
        &self.code
    }
}

impl Unit {
    /// What has this meaning, with its code.
    pub fn of(compiled: Compiled, code: Code) -> Unit
        requires unit { spec.IsUnit compiled }
        requires code { IsCodeOf compiled.core code }
        ensures { result ≡ compiled }
    {
        Unit { compiled, code }
    }

    /// Lets it go, with all its parts.
    pub fn let_go(self) {
        mem::drop(self);
    }

    /// What it is compiled from and to, and its code.
    pub fn parts(self) -> (Compiled, Code)
        ensures compiled { result.0 ≡ self }
        ensures unit { spec.IsUnit result.0 }
        ensures code { IsCodeOf result.0.core result.1 }
    {
        let Unit { compiled, code } = self;
        (compiled, code)
    }

    /// The same as a unit, of whose code nothing more is said.
    pub fn loaded(self) -> Loaded
        ensures { result ≡ self }
    {
        let Unit { compiled, code } = self;
        Loaded { compiled, code }
    }

    /// Its code, lent.
    pub fn code(&self) -> &Code
        ensures { IsCodeOf self.now.core result.now }
    {
        &self.code
    }
}
