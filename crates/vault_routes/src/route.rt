//! What the target of a message names.
ghost use Rattle.std.specs.Prelude.{◌≡◌, OnOk, OnErr, None, option_map};
ghost use Rattle.matchit.specs.Route.{parse_route};
ghost use Rattle.vault_routes.specs.Route.{NamesItsTarget, route_of, target_of};
ghost use Rattle.vault_routes.specs.Table.{template_text};
ghost use Rattle.vault_routes.specs.Templates.{HasRoomFor, templates, with_place};

use crate::table::{PLACES, Place};
use matchit::{InsertError, Router};
use std::alloc::{AllocError, Global};

/// What a target names, with the texts that it names it by.
#[derive(Clone, Copy, PartialEq, Eq)]
pub struct Route<'t> {
    /// The place that the target's template stands for.
    pub place: Place,
    /// The text that stands for the merchant.
    pub merchant: &'t str,
    /// The text that stands for the token; empty where the place has none.
    pub token: &'t str,
}

/// The templates of the service's targets.
#[derive(Drop)]
pub struct Routes {
    router: Router<Place>,
    ghost rows: { router ≡ templates },
}

// Adds the template of a place.
fn add(router: &mut Router<Place>, place: Place) -> Result<(), AllocError>
    // the place's template reads well and conflicts with none of the router's
    requires { HasRoomFor place router.old }
    // with Ok, the router has the place's template too
    ensures { OnOk result (router.new ≡ with_place router.old place) }
{
    match router.insert(place.template(), place) {
        Ok(()) => Ok(()),
        Err(error) => match error {
            InsertError::OutOfMemory => Err(AllocError),
            _ => unreachable!(),
        },
    }
}

impl Routes {
    /// The routes of the service. It fails only for want of memory.
    pub fn new(alloc: Global) -> Result<Routes, AllocError> {
        let mut router = Router::new(alloc);
        for place in &PLACES {
            add(&mut router, *place)?;
        }
        Ok(Routes { router })
    }

    /// What a target names, if it names anything.
    pub fn find<'t>(&self, target: &'t str) -> Option<Route<'t>>
        ensures { option_map target_of result ≡ route_of target.now }
    {
        if target.as_bytes().contains(&b'?') {
            return None;
        }
        let Ok(found) = self.router.at(target) else {
            return None;
        };
        let merchant = found.params.get("m")?;
        let token = found.params.get("t").unwrap_or("");
        Some(Route {
            place: *found.value,
            merchant,
            token,
        })
    }
}

/// What the templates say in the target's own bytes.
pub fn names_its_target()
    // a target names a place, a merchant and a token exactly where it is the place's template with these
    // texts
    ensures { NamesItsTarget }
{}
