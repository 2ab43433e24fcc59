//! Which place a path names.
ghost use Rattle.std.specs.Prelude.{◌≡◌, IfOk, IfSome, IfNone, OnOk};
ghost use Rattle.matchit.specs.Params.{AllText};
ghost use Rattle.matchit.specs.Seek.{first};
ghost use Rattle.amo_door.specs.Routes.{IsFound, part_of, table, taken, with_all, with_route};

use crate::Place;
use matchit::{InsertError, Params, Router};
use std::alloc::Global;
use std::marker::Model;

/// The paths of the places. Contracts see the rows of its router.
#[derive(Drop)]
pub struct Routes {
    router: Router<Place>,
}

impl Model for Routes {
    ghost use Rattle.matchit.specs.Rows.{RowsOf};
    ghost use Rattle.matchit.specs.Router.{RouteOf};
    ghost use Rattle.amo_door.specs.declared.place.Place.{Place};

    ghost Value = { RowsOf (RouteOf Place) };

    ghost view = { λ s. s.router };
}

/// What a path names: a place, and what stands in it for a stream and for a number.
#[derive(Clone, Copy)]
pub struct Found<'a> {
    /// The place.
    pub place: Place,
    /// What stands for a stream; nothing where the place has none.
    pub stream: &'a str,
    /// What stands for a number; nothing where the place has none.
    pub number: &'a str,
}

impl Routes {
    /// The paths of all places.
    pub fn new(alloc: Global) -> Result<Routes, InsertError>
        ensures { IfOk result (λ routes. routes ≡ table) }
    {
        let mut router = Router::new(alloc);
        add_all(&mut router)?;
        Ok(Routes { router })
    }

    /// What this path names, if it names a place.
    pub fn find<'a>(&self, path: &'a str) -> Option<Found<'a>>
        ensures some { IfSome result (IsFound self.now path.now) }
        ensures none { IfNone result (first self.now path.now ≡ None) }
    {
        match self.router.at(path) {
            Ok(found) => {
                let place = *found.value;
                let stream = part(&found.params, "stream");
                let number = part(&found.params, "number");
                Some(Found {
                    place,
                    stream,
                    number,
                })
            }
            Err(_) => None,
        }
    }
}

/// What the parameter of this name took of a path; nothing where there is none.
fn part<'a>(params: &Params<'_, 'a>, name: &str) -> &'a str
    ensures { AllText (taken params.now.pattern.now params.now.text.now params.now.names.now params.now.path.now)
        → result.now ≡ part_of name.now (taken params.now.pattern.now params.now.text.now params.now.names.now params.now.path.now) }
{
    match params.get(name) {
        Some(part) => part,
        None => "",
    }
}

/// The paths of all places.
fn add_all(router: &mut Router<Place>) -> Result<(), InsertError>
    ensures { OnOk result (router.new ≡ with_all router.old) }
{
    add(router, "/", Place::Page)?;
    add(router, "/healthz", Place::Health)?;
    add(router, "/metrics", Place::Metrics)?;
    add(router, "/v1", Place::Host)?;
    add(router, "/v1/events", Place::Events)?;
    add(router, "/v1/streams/{stream}", Place::Stream)?;
    add(router, "/v1/streams/{stream}/messages", Place::Messages)?;
    add(
        router,
        "/v1/streams/{stream}/messages/{number}",
        Place::Message,
    )?;
    add(router, "/v1/streams/{stream}/take", Place::Take)?;
    add(router, "/v1/streams/{stream}/got", Place::Got)
}

/// One path more.
fn add(router: &mut Router<Place>, path: &str, place: Place) -> Result<(), InsertError>
    ensures { OnOk result (router.new ≡ with_route path.now place router.old) }
{
    router.insert(path, place)
}
