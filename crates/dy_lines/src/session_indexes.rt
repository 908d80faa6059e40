ghost use Rattle.std.specs.Prelude.{◌≡◌};
ghost use Rattle.dy_lines.specs.inside.Noting.{IsNoted};

use dy_dots::Fault;
use dy_shares::StepNumbers;
use std::alloc::Global;
use std::marker::Model;

/// By the number of each step, which of some sessions was told it: as an ack, or as an answer of a
/// get.
#[derive(Debug, Drop)]
pub struct SessionIndex {
    // By the number of the step: the place of the session, or how many sessions there are where
    // none was told.
    places: Vec<usize>,
    count: usize,
}

impl Model for SessionIndex {
    ghost use Rattle.dy_lines.specs.Sessions.{SessionPlaces, session_places_code};

    ghost Value = { SessionPlaces };

    ghost coded = { session_places_code };

    ghost view = { λ index. record { places = index.places.items; count = index.count } };
}

impl SessionIndex {
    ghost use Rattle.std.specs.Prelude.{IfOk, IsOkUnless};
    ghost use Rattle.dy_lines.specs.Sessions.{HasSessions, place_by};

    /// The index of so many steps: of each, the first of the sessions that was told it.
    pub fn new(alloc: Global, steps: usize, told: &[StepNumbers]) -> Result<SessionIndex, Fault>
        ensures ok { IfOk result (HasSessions steps told.now) }
        ensures memory { IsOkUnless result Fault.OutOfMemory }
    {
        // There is a place for the number 0 too, though steps are numbered from 1.
        let numbers = steps.checked_add(1).ok_or(Fault::OutOfMemory)?;
        let count = told.len();
        let mut places = vec![in alloc; count; numbers]?;
        // The last session comes first, so that the first one stays.
        for place in (0..count).rev() {
            note(&mut places, told[place].acks.as_slice(), place);
            note(&mut places, told[place].fetches.as_slice(), place);
        }
        Ok(SessionIndex { places, count })
    }

    /// The place of the session that was told the step of this number, or how many sessions there
    /// are where none was. Takes no memory.
    pub fn session_at(&self, number: usize) -> usize
        ensures { result ≡ place_by self.now number }
    {
        self.places.get(number).copied().unwrap_or(self.count)
    }
}

// Notes the place by each of these numbers.
fn note(places: &mut [usize], numbers: &[usize], place: usize)
    ensures { IsNoted places.old numbers.now place places.new }
{
    for number in numbers {
        if *number < places.len() {
            places[*number] = place;
        }
    }
}
