//! An engine is served once an IDE holds the key A.

ghost use Rattle.std.specs.Prelude.{◌≡◌};
ghost use Rattle.dp_desk.specs.Desks.{IsNew};
ghost use Rattle.dp_desk.specs.Made.{all_shares};

use crate::objects::Objects;
use dp_desk::{Clerk, Desk};
use dp_outside::ByteSink;
use dp_registry::{Refusal, Registry};
use dp_relay::{RelayEnd, serve_engine};
use dp_rows::Memory;
use std::alloc::Global;
use std::marker::Brand;
use std::sync::Wait;
use std::sync::ledger::{Blank, Ledger};
use std::thread::Threads;

/// How a service ended, what was put on the links of the engine and of its IDE, and the registry.
#[derive(Drop)]
pub(crate) struct Served {
    pub(crate) end: RelayEnd,
    pub(crate) engine: ByteSink,
    pub(crate) ide: Option<ByteSink>,
    pub(crate) registry: Registry,
}

/// Registers the key A, serves the engine, and closes the registry.
fn serve_at<R: Threads + Wait + Sync + Send, A: Ledger, B: Ledger, C: Ledger>(
    rt: &R,
    alloc: Global,
    desk: Desk<A, B, C>,
    mut clerk: Clerk<A, B, C>,
    objects: Objects<R>,
) -> Result<Served, Refusal>
    requires { IsNew desk clerk }
{
    let host = b"10.0.0.1".as_slice();
    desk.register(rt, &mut clerk, host, 9000, b"A".as_slice(), false)?;
    let Objects {
        source,
        sink,
        mut dialer,
        mut spawner,
    } = objects;
    let (end, _source, engine, ide) = serve_engine(
        rt,
        alloc,
        &desk,
        &mut clerk,
        source,
        sink,
        &mut dialer,
        &mut spawner,
    );
    let ide = match ide {
        Some((_from, to)) => Some(to),
        None => None,
    };
    Ok(Served {
        end,
        engine,
        ide,
        registry: desk.shut(rt, clerk),
    })
}

/// The same at a new desk.
fn serve_with<R: Threads + Wait + Sync + Send, A: Ledger, B: Ledger, C: Ledger>(
    rt: &R,
    alloc: Global,
    blanks: (Blank, Blank, Blank),
    objects: Objects<R>,
) -> Result<Served, Memory>
    requires registers { (blanks.0.name ≡ A.name) × (blanks.0.parts ≡ A.parts) × (blanks.0.parts ≡ all_shares) }
    requires admits { (blanks.1.name ≡ B.name) × (blanks.1.parts ≡ B.parts) × (blanks.1.parts ≡ all_shares) }
    requires dismissals { (blanks.2.name ≡ C.name) × (blanks.2.parts ≡ C.parts) × (blanks.2.parts ≡ all_shares) }
{
    let (registers, admits, dismissals) = blanks;
    let (desk, clerk) = Desk::<A, B, C>::new(alloc, registers, admits, dismissals)?;
    match serve_at(rt, alloc, desk, clerk, objects) {
        Ok(served) => Ok(served),
        Err(_) => Err(Memory),
    }
}

/// Serves an engine over these objects, at a registry in which the key A is registered.
pub(crate) fn serve<R: Threads + Wait + Sync + Send>(
    rt: &R,
    alloc: Global,
    objects: Objects<R>,
) -> Result<Served, Memory> {
    let blanks = (Blank::new(65536), Blank::new(65536), Blank::new(65536));
    serve_with::<R, Brand, Brand, Brand>(rt, alloc, blanks, objects)
}
