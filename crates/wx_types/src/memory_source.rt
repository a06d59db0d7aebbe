// A source in memory.
ghost use Rattle.std.specs.Prelude.{◌≡◌, ◌++◌, ◌↔◌, ◌≤◌, [], Some, IsErr, IfOk, OnErr, length, min, take, drop};
ghost use Rattle.wx_types.specs.MemoryObjects.{SourceState, NextFails, after_call, after_fault};

use super::byte_list::Bytes;
use super::errors::Failed;
use super::memory_plan::CallPlan;
use super::outside::Source;
use std::marker::Model;

/// A source in memory, which gives the bytes that it was made with. It is for tests: it fails at the
/// calls that are named to it.
#[derive(Debug, Drop)]
pub struct MemSource {
    held: Bytes,
    at: usize,
    plan: CallPlan,
}

impl Model for MemSource {
    ghost use Rattle.std.specs.Prelude.{◌≤◌, take, drop, length};
    ghost use Rattle.wx_types.specs.MemoryObjects.{SourceState};

    ghost Value = { SourceState };

    ghost view = { λ a. record { given = take a.at a.held; left = drop a.at a.held; plan = a.plan } };

    ghost invariant = { λ a. a.at ≤ length a.held };
}

impl MemSource {
    /// A source of these bytes, which fails at the calls whose numbers, from 1, are in `fails`.
    pub fn new(held: Bytes, fails: Vec<u64>) -> MemSource
        ensures { result ≡ record { given = []; left = held; plan = record { fails = fails.items; calls = 0; faults = 0 } } }
    {
        MemSource {
            held,
            at: 0,
            plan: CallPlan::new(fails),
        }
    }
}

impl Source for MemSource {
    ghost use Rattle.std.specs.Prelude.{Some};

    ghost faults = { λ source. source.plan.faults };

    ghost left = { λ source. Some source.left };

    ghost given = { λ source. Some source.given };

    /// Gives as many bytes as `out` has room for, or all that are left where those are fewer. It fails
    /// exactly where the call is one that is to fail.
    fn read(&mut self, out: &mut [u8]) -> Result<usize, Failed>
        ensures fails { IsErr result ↔ NextFails self.old.plan }
        ensures ok { IfOk result (λ n. n ≡ min (length out.old) (length self.old.left)) }
        ensures gave { IfOk result (λ n. self.new ≡ record { given = self.old.given ++ take n self.old.left; left = drop n self.old.left; plan = after_call self.old.plan }) }
        ensures wrote { IfOk result (λ n. out.new ≡ take n self.old.left ++ drop n out.old) }
        ensures never_falls { self.old.plan.faults ≤ self.new.plan.faults }
        ensures err { OnErr result (self.new ≡ record self.old { plan = after_fault self.old.plan }) }
        ensures unwritten { OnErr result (out.new ≡ out.old) }
    {
        if self.plan.next_fails() {
            self.plan.count_fault();
            return Err(Failed);
        }
        let left = &self.held.as_slice()[self.at..];
        let n = out.len().min(left.len());
        out[..n].copy_from_slice(&left[..n]);
        self.at += n;
        self.plan.count_call();
        Ok(n)
    }
}
