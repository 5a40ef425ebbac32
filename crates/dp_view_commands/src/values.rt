//! Variables and properties.

ghost use Rattle.std.specs.Prelude.{◌≡◌, ◌∷◌, [], Err, IfOk, IfSome};
ghost use Rattle.dp_packet.specs.declared.packet.Body.TheVariants as body;
ghost use Rattle.dp_view.specs.Answers as viewed;
ghost use Rattle.dp_view.specs.Answers.{AnswersAfter};
ghost use Rattle.dp_view.specs.Named.{named_path};
ghost use Rattle.dp_view_commands.specs.Results.{Answers};
ghost use Rattle.dp_view_commands.specs.Views as spec;
ghost use Rattle.dp_view.specs.Answers.{Gives};

use crate::packets::{context_room, limited, none, number, property_room, respond};
use dp_bytes::{Bytes, Items, Memory};
use dp_command::{Addressee, PropertyPlace};
use dp_features::Features;
use dp_packet::{Body, Property, Response};
use dp_state::State;
use dp_tree::Bundle;
use dp_view::{Paging, ShownValue, ViewError, named_value};
use dp_view_limits::{limited_context, limited_property};
use std::alloc::Global;

/// How much is shown of values.
fn paging(features: &Features, most: Option<u32>, page: u32) -> Paging
    ensures { result ≡ spec.paging features.now most page }
{
    Paging {
        children: u64::from(features.max_children()),
        bytes: u64::from(most.unwrap_or(features.max_data())),
        depth: features.max_depth(),
        page: u64::from(page),
    }
}

/// The response that shows properties, which it has room for.
fn filled(
    alloc: Global,
    to: &Addressee,
    attributes: Items<(Bytes, Bytes)>,
    shown: Items<Property>,
) -> Result<Response, ViewError>
    ensures { Gives
        (spec.response_with to.now.command to.now.id (attributes, body.Properties shown)) result }
{
    Ok(respond(alloc, to, attributes, Body::Properties(shown))?)
}

/// The same with the number of a context.
fn context_filled(
    alloc: Global,
    to: &Addressee,
    id: u32,
    shown: Items<Property>,
) -> Result<Response, ViewError>
    ensures { Gives
        (spec.response_with to.now.command to.now.id (spec.context_attributes id, body.Properties shown)) result }
{
    let attributes = number(alloc, b"context", u64::from(id))?;
    filled(alloc, to, attributes, shown)
}

/// The variables of a context.
pub(crate) fn context_response(
    alloc: Global,
    bundle: &Bundle,
    features: &Features,
    state: &State,
    level: u32,
    id: u32,
    to: &Addressee,
) -> Result<Response, ViewError>
    ensures { viewed.Answers (λ r. r) result
        (spec.answered to.now.command to.now.id (spec.context_part features.now state.now level id)) }
{
    let p = paging(features, None, 0);
    let room = context_room(to, id);
    match limited_context(alloc, bundle, state, level, id, &p, room) {
        Ok(shown) => context_filled(alloc, to, id, shown),
        Err(why) => Err(why),
    }
}

/// One property.
fn alone(alloc: Global, made: Property) -> Result<Items<Property>, Memory>
    ensures { IfOk result (λ all. all ≡ made ∷ []) }
{
    let mut all = Vec::new(alloc);
    all.push(made)?;
    Ok(Items::of(all))
}

/// The response that shows one property.
fn property_filled(alloc: Global, to: &Addressee, made: Property) -> Result<Response, ViewError>
    ensures { Gives (spec.response_with to.now.command to.now.id ([], body.Properties (made ∷ []))) result }
{
    let shown = alone(alloc, made)?;
    filled(alloc, to, none(alloc), shown)
}

/// The property at a place.
pub(crate) fn property_response(
    alloc: Global,
    features: &Features,
    state: &State,
    place: &PropertyPlace,
    page: u32,
    most: Option<u32>,
    to: &Addressee,
) -> Result<Response, ViewError>
    ensures { AnswersAfter (λ r. r) result
        (named_path state.now place.now.level place.now.context place.now.name)
        (spec.answered to.now.command to.now.id (spec.property_part features.now state.now place.now page most)) }
{
    let p = paging(features, most, page);
    let room = property_room(to);
    let name = place.name.as_slice();
    match limited_property(alloc, state, place.level, place.context, name, &p, room) {
        Ok(made) => property_filled(alloc, to, made),
        Err(why) => Err(why),
    }
}

/// The value at a place.
pub(crate) fn value_response(
    alloc: Global,
    state: &State,
    place: &PropertyPlace,
    most: Option<u32>,
    to: &Addressee,
) -> Result<Response, ViewError>
    ensures answer { Answers result (spec.answered to.now.command to.now.id
        (spec.value_part state.now place.now most)) }
    ensures at_once { IfSome (spec.code_in (named_path state.now place.now.level place.now.context place.now.name))
        (λ code. result ≡ Err (ViewError.Code code)) }
{
    let name = place.name.as_slice();
    let most = most.map(u64::from);
    let ShownValue { attributes, text } = named_value(
        alloc,
        state,
        place.level,
        place.context,
        name,
        most,
    )?;
    limited(respond(alloc, to, attributes, Body::Plain(text))?)
}
