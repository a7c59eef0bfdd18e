//! The encoders of the methods.
ghost use Rattle.std.specs.Prelude.{◌≡◌, IsSome};
ghost use Rattle.router_words.specs.Near.{IsNear};
ghost use Rattle.run_clauses.specs.Known.{crowd_of};
ghost use Rattle.run_clauses.specs.Method.{IsRoutingBy};
ghost use Rattle.run_clauses.specs.Suited.{IsEncoderOf, clauses_along};
ghost use Rattle.router_words.specs.declared.method.Method.TheVariants.{Ordered as OrderedMethod};

use crate::chosen::Chosen;
use arrayvec::ArrayVec;
use fpga_bounds::PlacedProblem;
use fpga_types::RouteText;
use problem_facts::Facts;
use route_encode::{Encoder, Strict};
use route_ordered::Ordered;
use route_pinned::Pinned;
use route_reach::Reach;
use router_words::Method;
use sat_clause::Formula;
use std::alloc::{AllocError, Global};

impl Chosen {
    /// The encoder of a method for a problem of which this is known: its facts, where tracks are to
    /// be kept in the order of a crowd. Takes no memory.
    pub fn of(method: Method, known: &Option<Facts>) -> Chosen
        requires near { IsNear method }
        requires known { method ≡ OrderedMethod → IsSome known.now }
        ensures { IsEncoderOf method (crowd_of known.now) result }
    {
        match method {
            Method::Ordered => {
                let Some(facts) = known else { unreachable!() };
                let order = Ordered::of_crowd(facts);
                Chosen { method, order }
            }
            Method::Strictly | Method::Pinned | Method::Within(_) => {
                Chosen::without_order(method)
            }
        }
    }

    // The encoder of a method that keeps no slots in order.
    fn without_order(method: Method) -> Chosen
        requires near { IsNear method }
        ensures { result.method ≡ method }
    {
        let order = Ordered {
            row: ArrayVec::new(),
        };
        Chosen { method, order }
    }
}

impl Encoder for Chosen {
    ghost formula_of = { λ chosen p width.
        clauses_along chosen.method chosen.order.row.items width p };

    ghost is_good = { λ chosen p width found. IsRoutingBy chosen.method width p found };

    fn count(&self, problem: &PlacedProblem, width: u32) -> u64 {
        match self.method {
            Method::Strictly => Strict.count(problem, width),
            Method::Pinned => Pinned.count(problem, width),
            Method::Within(reach) => Reach { reach }.count(problem, width),
            Method::Ordered => self.order.count(problem, width),
        }
    }

    fn build(
        &self,
        alloc: Global,
        problem: &PlacedProblem,
        width: u32,
    ) -> Result<Formula, AllocError> {
        match self.method {
            Method::Strictly => Strict.build(alloc, problem, width),
            Method::Pinned => Pinned.build(alloc, problem, width),
            Method::Within(reach) => Reach { reach }.build(alloc, problem, width),
            Method::Ordered => self.order.build(alloc, problem, width),
        }
    }

    fn decode(
        &self,
        alloc: Global,
        problem: &PlacedProblem,
        width: u32,
        values: &[bool],
    ) -> Result<RouteText, AllocError> {
        match self.method {
            Method::Strictly => Strict.decode(alloc, problem, width, values),
            Method::Pinned => Pinned.decode(alloc, problem, width, values),
            Method::Within(reach) => Reach { reach }.decode(alloc, problem, width, values),
            Method::Ordered => self.order.decode(alloc, problem, width, values),
        }
    }
}
