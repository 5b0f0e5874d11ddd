ghost use Rattle.std.specs.Prelude.{◌≡◌, IfOk, IfErr};
ghost use Rattle.git_refname.specs.Rule.{IsRefName};
ghost use Rattle.git_reftx.specs.Transaction.{bad_ref};

use crate::command::{Change, Command, Demand};
use git_refname::RefName;
use std::marker::Model;

// A command whose reference has a valid name.
#[derive(Debug, Drop)]
pub(crate) struct Order {
    reference: RefName,
    demand: Demand,
    change: Change,
}

impl Model for Order {
    ghost use Rattle.git_refname.specs.Rule.{IsRefName};
    ghost use Rattle.git_reftx.specs.declared.command.Command.{Command};

    ghost Value = { Command };

    ghost view = { λ a. record { reference = a.reference; demand = a.demand; change = a.change } };
}

impl Order {
    pub(crate) fn new(reference: RefName, demand: Demand, change: Change) -> Order
        ensures { result ≡ record { reference = reference; demand = demand; change = change } }
    {
        Order {
            reference,
            demand,
            change,
        }
    }

    pub(crate) fn reference(&self) -> &RefName
        ensures { result.now ≡ self.now.reference }
    {
        &self.reference
    }

    pub(crate) fn demand(&self) -> Demand
        ensures { result ≡ self.now.demand }
    {
        self.demand
    }

    pub(crate) fn change(&self) -> Change
        ensures { result ≡ self.now.change }
    {
        self.change
    }
}
