//! The objects of the outside that a command is lent.

use dp_outside::{Net, Shelf, Sink, Source, Spawner};
use std::marker::Model;

/// The objects of the outside that a command is lent, each behind a lifetime of its own. Contracts see what they tell,
/// how often each has failed, and which objects they are: by that the function that made the record, and takes it
/// apart, knows what became of each.
#[derive(Drop)]
pub(crate) struct Objects<
    'h,
    's,
    'k,
    'e,
    'n,
    'p,
    H: Shelf,
    S: Source,
    K: Sink,
    E: Sink,
    N: Net,
    P: Spawner,
> {
    pub(crate) shelf: &'h mut H,
    pub(crate) input: &'s mut S,
    pub(crate) out: &'k mut K,
    pub(crate) err: &'e mut E,
    pub(crate) net: &'n mut N,
    pub(crate) spawner: &'p mut P,
}

impl<'h, 's, 'k, 'e, 'n, 'p, H: Shelf, S: Source, K: Sink, E: Sink, N: Net, P: Spawner> Model
    for Objects<'h, 's, 'k, 'e, 'n, 'p, H, S, K, E, N, P> {
    ghost use Rattle.dp_top.specs.inner.Kept.{Lent};
    ghost use Rattle.dp_top.specs.Seen.{seen};

    ghost Value = { Lent };

    ghost view = { λ o. record {
      seen =
          seen H.Shelf S.Source K.Sink E.Sink N.Dialer P.Spawner
          o.shelf.now o.input.now o.out.now o.err.now o.net.now o.spawner.now;
      names = record {
        shelf = o.shelf.ghost_name;
        input = o.input.ghost_name;
        out = o.out.ghost_name;
        err = o.err.ghost_name;
        net = o.net.ghost_name;
        spawner = o.spawner.ghost_name;
      };
    } };
}
