// Puts what was present in a closed cluster into another one.
ghost use Rattle.std.specs.Prelude.{◌≡◌, map, IfOk, IfErr, OnOk, IsOkUnless, Err};
ghost use Rattle.std.specs.FinSet as set;
ghost use Rattle.dy_cluster.specs.Carrying.{AreCarried, EndsBehindNothing, IsCarried, StopsAt};
ghost use Rattle.dy_cluster.specs.Carrying.{IsCarriedOver, StopsCarrying};

use crate::connections::Connection;
use crate::resting::Closed;
use crate::values::PresentValue;
use dy_coord::{PutDone, PutFault};
use dy_dots::{Context, Fault};
use dy_shares::Naming;
use dy_siblings::Value;
use dy_transport::Transport;
use std::alloc::Global;
use std::collections::VecDeque;
use std::sync::Wait;

/// Why not all values were carried over: `count` of them were put, and the put of the next was
/// refused.
#[derive(Debug, Drop)]
pub struct CarryFault {
    pub count: usize,
    pub refused: PutFault,
}

impl From<CarryFault> for Fault {
    ghost from_gives = { λ stopped fault. fault ≡ stopped.refused.fault };

    fn from(stopped: CarryFault) -> Fault {
        let CarryFault { count: _, refused } = stopped;
        refused.fault
    }
}

// Copies of the values, which share their bytes.
fn copies_of(alloc: Global, values: &[PresentValue]) -> Result<VecDeque<Value>, Fault>
    ensures ok { IfOk result (λ copies. copies.items ≡ map (λ x. x.value) values.now) }
    ensures memory { IsOkUnless result Fault.OutOfMemory }
{
    let mut copies = VecDeque::with_capacity(alloc, values.len())?;
    for present in values {
        copies.push_back(present.value.try_clone(alloc)?)?;
    }
    Ok(copies)
}

impl<'a, J: Naming, T: Transport<J>> Connection<'a, J, T> {
    // Puts a value with an empty context.
    fn put_present<R: Wait>(
        &mut self,
        rt: &R,
        present: &PresentValue,
        none: &Context,
        value: Value,
    ) -> Result<PutDone<J>, PutFault>
        requires nothing { none.now ≡ set.empty }
        requires value { value ≡ present.now.value }
        ensures ok { IfOk result (λ done. IsCarried {J = J} J.ring J.n self.old.w present.now
            self.old.session self.new.session
            (T.told self.old.transport) (T.told self.new.transport)) }
        ensures err { IfErr result (λ refused. (self.new.session ≡ self.old.session)
            × EndsBehindNothing {J = J} J.ring J.n self.old.w present.now
            self.old.session self.old.session
            (T.told self.old.transport) (T.told self.new.transport) (Err refused)) }
        ensures w { self.new.w ≡ self.old.w }
    {
        self.put(rt, &present.key, none, value)
    }

    /// Puts each of the values with an empty context, in their order, so none of them follows
    /// another. The first refused put ends it. May wait for answers and locks.
    pub fn put_each<R: Wait>(
        &mut self,
        rt: &R,
        alloc: Global,
        values: &[PresentValue],
    ) -> Result<(), CarryFault>
        ensures ok { OnOk result (AreCarried {J = J} J.ring J.n self.old.w values.now
            self.old.session self.new.session
            (T.told self.old.transport) (T.told self.new.transport)) }
        ensures err { IfErr result (StopsAt {J = J} J.ring J.n self.old.w values.now
            self.old.session self.new.session
            (T.told self.old.transport) (T.told self.new.transport)) }
        ensures w { self.new.w ≡ self.old.w }
    {
        let mut copies = match copies_of(alloc, values) {
            Ok(copies) => copies,
            Err(fault) => {
                let refused = PutFault::early(alloc, fault);
                return Err(CarryFault { count: 0, refused });
            }
        };
        let none = Context::new(alloc);
        let mut count = 0;
        for present in values {
            let Some(value) = copies.pop_front() else {
                unreachable!();
            };
            if let Err(refused) = self.put_present(rt, present, &none, value) {
                return Err(CarryFault { count, refused });
            }
            count += 1;
        }
        Ok(())
    }
}

/// Puts the values that were present in the closed cluster through the connection, each with an
/// empty context, by key and then by dot. Gives how many. All its own memory is taken before the
/// first put. After a refusal go on with `put_each` and the rest of `Closed::values`. May wait for
/// answers and locks.
pub fn carry_over<J: Naming, T: Transport<J>, R: Wait>(
    rt: &R,
    alloc: Global,
    closed: &Closed,
    connection: &mut Connection<'_, J, T>,
) -> Result<usize, CarryFault>
    ensures ok { IfOk result (IsCarriedOver {J = J} J.ring J.n connection.old.w
        closed.now.audit.held.items connection.old.session connection.new.session
        (T.told connection.old.transport) (T.told connection.new.transport)) }
    ensures err { IfErr result (StopsCarrying {J = J} J.ring J.n connection.old.w
        closed.now.audit.held.items connection.old.session connection.new.session
        (T.told connection.old.transport) (T.told connection.new.transport)) }
    ensures w { connection.new.w ≡ connection.old.w }
{
    let values = match closed.values(alloc) {
        Ok(values) => values,
        Err(fault) => {
            let refused = PutFault::early(alloc, fault);
            return Err(CarryFault { count: 0, refused });
        }
    };
    connection.put_each(rt, alloc, values.as_slice())?;
    Ok(values.len())
}
