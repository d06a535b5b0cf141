// The bodies of methods.
ghost use Rattle.std.specs.Prelude.{◌≡◌, IfOk};
ghost use Rattle.cb_library.specs.Rows.{Runs};
ghost use Rattle.cb_core.specs.Entered.{HasBody, HasKind, HasRoom, IsRunnable, Puts};
ghost use Rattle.cb_core.specs.Rowed.{body_row, kind_row};
ghost use Rattle.cb_core.specs.Sound.{IsSoundBody, kind_room};
ghost use Rattle.cb_core.specs.Recorded.{entered, with_body, with_kind};

use crate::code::{code_of, places_of};
use crate::frame::frames_of;
use crate::row::{Body as BodyRow, Kind};
use cb_classfile::{Body, Handlers, Pool};
use cb_plain::OutOfMemory;
use std::alloc::Global;

/// The body of a row.
fn body_of(alloc: Global, pool: &mut Pool, row: &BodyRow) -> Result<Body, OutOfMemory>
    requires room { HasRoom (kind_room (Runs (body_row row.now))) pool.old }
    requires sound { IsSoundBody (body_row row.now) }
    ensures put { IfOk result (Puts (kind_room (Runs (body_row row.now))) (HasBody (body_row row.now)) pool.old pool.new) }
    ensures made { IfOk result (λ body. with_body (body_row row.now) pool.old ≡ entered pool.new body) }
{
    let places = places_of(alloc, row.code)?;
    let code = code_of(alloc, pool, &places, row.code)?;
    let frames = frames_of(alloc, pool, &places, &row.frame)?;
    Ok(Body {
        max_stack: row.max_stack,
        max_locals: row.max_locals,
        code,
        handlers: Handlers::new(alloc),
        frames,
    })
}

/// The body of a method, where it is one that runs.
pub(crate) fn kind_of(
    alloc: Global,
    pool: &mut Pool,
    row: &Kind,
) -> Result<Option<Body>, OutOfMemory>
    requires room { HasRoom (kind_room (kind_row row.now)) pool.old }
    requires sound { IsRunnable (kind_row row.now) }
    ensures put { IfOk result (Puts (kind_room (kind_row row.now)) (HasKind (kind_row row.now)) pool.old pool.new) }
    ensures made { IfOk result (λ body. with_kind (kind_row row.now) pool.old ≡ entered pool.new body) }
{
    match row {
        Kind::Runs(row) => {
            let body = body_of(alloc, pool, row)?;
            Ok(Some(body))
        }
        _ => Ok(None),
    }
}
