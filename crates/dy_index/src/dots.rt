// The dots of a row, as a slice that can be lent.
ghost use Rattle.std.specs.{
  Prelude.{◌≡◌, ◌≤◌, ◌∷◌, [], insert, length, map, not, IfOk, OnOk, OnErr, IsOkUnless},
  List.{filter},
};
ghost use Rattle.dy_dots.specs.Dots.{same_dot};

use dy_dots::{Dot, Fault};
use dy_siblings::Version;
use std::alloc::Global;
use std::marker::Model;
use std::slice;

// The dots of a row's versions, in their order. One dot takes no memory.
#[derive(Debug, Drop)]
pub struct Dots {
    one: Option<Dot>,
    more: Vec<Dot>,
}

impl Model for Dots {
    ghost use Rattle.std.specs.{Prelude.{List}, Coded.{coded_list}};
    ghost use Rattle.dy_dots.specs.{Dots.{dot_code}, declared.dots.Dot.{Dot as DotParts}};
    ghost use Rattle.dy_index.specs.inside.Held.{dots_in};

    ghost Value = { List DotParts };

    ghost coded = { coded_list dot_code };

    ghost view = { λ dots. dots_in dots.one dots.more.items };
}

impl Dots {
    // The dots of the versions.
    pub(crate) fn of(alloc: Global, versions: &[Version]) -> Result<Dots, Fault>
        ensures ok { IfOk result (λ dots. dots ≡ map (λ v. v.dot) versions.now) }
        ensures memory { IsOkUnless result Fault.OutOfMemory }
    {
        if versions.len() == 1 {
            return Ok(Dots {
                one: Some(versions[0].dot()),
                more: Vec::new(alloc),
            });
        }
        let mut more = Vec::with_capacity(alloc, versions.len())?;
        for version in versions {
            more.push(version.dot())?;
        }
        Ok(Dots { one: None, more })
    }

    // The dots, in their order.
    pub(crate) fn as_slice(&self) -> &[Dot]
        ensures { result.now ≡ self.now }
    {
        match &self.one {
            Some(one) => slice::from_ref(one),
            None => self.more.as_slice(),
        }
    }

    // Puts the dot at this place among the others.
    pub(crate) fn insert(&mut self, alloc: Global, at: usize, dot: Dot) -> Result<(), Fault>
        requires { at ≤ length self.old }
        ensures ok { OnOk result (self.new ≡ insert self.old at dot) }
        ensures err { OnErr result (self.new ≡ self.old) }
        ensures memory { IsOkUnless result Fault.OutOfMemory }
    {
        match self.one {
            Some(one) => {
                let mut more = Vec::with_capacity(alloc, 2)?;
                more.push_reserved(one);
                more.insert(at, dot)?;
                self.more = more;
                self.one = None;
            }
            None => self.more.insert(at, dot)?,
        }
        Ok(())
    }

    // The dot is the only one. Takes no memory.
    pub(crate) fn put_alone(&mut self, dot: Dot)
        ensures { self.new ≡ dot ∷ [] }
    {
        self.one = Some(dot);
    }

    // Takes the dot out, where it is there.
    pub(crate) fn take_out(&mut self, dot: Dot)
        ensures { self.new ≡ filter (λ e. not (same_dot e dot)) self.old }
    {
        match self.one {
            Some(one) => {
                if one == dot {
                    self.one = None;
                    self.more.clear();
                }
            }
            None => self.more.retain(|other| *other != dot),
        }
    }
}
