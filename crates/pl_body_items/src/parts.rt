//! Parts of a body that are not ended yet.

ghost use Rattle.std.specs.Prelude.{◌≡◌, ◌↔◌, [], ◌∷◌, OnOk, MatchOption, IsTrue};
ghost use Rattle.pl_body_items.specs.Steps as spec;
ghost use Rattle.pl_body_items.specs.declared.parts.Section.TheVariants as section;

use crate::Spot;
use pl_base::{Boxed, Held, List, Name};
use pl_bodies::{Branch, CaseArm, Caught, Declaration, Handler, LoopHead, Statement};
use pl_tree::Expr;
use std::alloc::{AllocError, Global};
use std::marker::Model;

/// What is open, and where in it the next statement stands.
#[derive(Drop)]
pub(crate) enum Section {
    /// Nothing: the body itself, whose one statement is a block.
    Body,
    Block {
        label: Option<Name>,
        declarations: List<Declaration>,
    },
    /// A handler of a block, whose statements and earlier handlers are whole.
    Handler {
        label: Option<Name>,
        declarations: List<Declaration>,
        statements: List<Statement>,
        handlers: List<Handler>,
        conditions: List<Caught>,
    },
    /// A branch behind those that are whole.
    If {
        branches: List<Branch>,
        condition: Held<Expr>,
    },
    /// ELSE of IF
    IfElse(List<Branch>),
    /// An arm behind those that are whole.
    Case {
        operand: Option<Boxed<Expr>>,
        arms: List<CaseArm>,
        values: List<Expr>,
    },
    /// ELSE of CASE
    CaseElse {
        operand: Option<Boxed<Expr>>,
        arms: List<CaseArm>,
    },
    Loop {
        label: Option<Name>,
        head: Held<LoopHead>,
    },
}

/// A part that is open, with its statements so far.
#[derive(Drop)]
pub(crate) struct Open {
    pub(crate) spot: Spot,
    pub(crate) section: Held<Section>,
    pub(crate) statements: List<Statement>,
}

impl Open {
    // A part without any statement.
    pub(crate) fn new(alloc: Global, spot: Spot, section: Section) -> Open
        ensures { result ≡ spec.open_of spot section [] }
    {
        Open {
            spot,
            section: Held::new(section),
            statements: List::new(alloc),
        }
    }

    pub(crate) fn block(
        alloc: Global,
        spot: Spot,
        label: Option<Name>,
        declarations: List<Declaration>,
    ) -> Open
        ensures { result ≡ spec.open_of spot (section.Block label declarations) [] }
    {
        let section = Section::Block {
            label,
            declarations,
        };
        Open::new(alloc, spot, section)
    }

    // A first branch.
    pub(crate) fn branch(alloc: Global, spot: Spot, condition: Held<Expr>) -> Open
        ensures { result ≡ spec.open_of spot (section.If [] condition) [] }
    {
        let section = Section::If {
            branches: List::new(alloc),
            condition,
        };
        Open::new(alloc, spot, section)
    }

    // A first arm.
    pub(crate) fn case(
        alloc: Global,
        spot: Spot,
        operand: Option<Boxed<Expr>>,
        values: List<Expr>,
    ) -> Open
        ensures { result ≡ spec.open_of spot (section.Case operand [] values) [] }
    {
        let section = Section::Case {
            operand,
            arms: List::new(alloc),
            values,
        };
        Open::new(alloc, spot, section)
    }

    pub(crate) fn turns(
        alloc: Global,
        spot: Spot,
        label: Option<Name>,
        head: Held<LoopHead>,
    ) -> Open
        ensures { result ≡ spec.open_of spot (section.Loop label head) [] }
    {
        let section = Section::Loop { label, head };
        Open::new(alloc, spot, section)
    }
}

/// The parts around the innermost one. Contracts see the one that is nearest to it first.
#[derive(Drop)]
pub(crate) struct Around {
    parts: List<Open>,
}

impl Model for Around {
    ghost use Rattle.std.specs.Prelude.{List, reverse};
    ghost use Rattle.pl_body_items.specs.declared.parts.Open.{Open};
    ghost use Rattle.pl_body_items.specs.contracts.parts.Open as e;
    ghost use Rattle.std.specs.Coded.{codes};

    ghost Value = { List Open };

    ghost coded = { Prim.hlevel (codes, e.the_row.coded) };

    ghost view = { λ a. reverse a.parts };
}

impl Around {
    pub(crate) fn new(alloc: Global) -> Around
        ensures { result ≡ [] }
    {
        Around {
            parts: List::new(alloc),
        }
    }

    pub(crate) fn push(&mut self, part: Open) -> Result<(), AllocError>
        ensures { OnOk result (self.new ≡ part ∷ self.old) }
    {
        self.parts.push(part)
    }

    pub(crate) fn pop(&mut self) -> Option<Open>
        ensures { MatchOption result (self.old ≡ []) (λ part. self.old ≡ part ∷ self.new) }
    {
        self.parts.pop()
    }

    #[tactic(auto, using(crate::proofs::Turned::turned))]
    pub(crate) fn is_empty(&self) -> bool
        ensures { IsTrue result ↔ (self.now ≡ []) }
    {
        self.parts.is_empty()
    }
}
