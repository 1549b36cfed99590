//! TSRequest, read in pieces.
ghost use Rattle.std.specs.Prelude.{[], Some, Ok};
ghost use Rattle.sspi_tsreq.specs.Feeding.{Stands};
ghost use Rattle.sspi_tsreq.specs.declared.reader.TsReader.{TsReader as Fed};
ghost use Rattle.newaksu_c.specs.declared.object.Object.TheVariants as objects;
ghost use Rattle.newaksu_c.specs.Held.{reader_in};
ghost use Rattle.newaksu_c.specs.Putting.{Puts};
ghost use Rattle.newaksu_c.specs.Readers.{Finishes, HasFed, HasFinished};

use crate::handle::Handle;
use crate::kept_request::KeptRequest;
use crate::object::Object;
use crate::putting::put;
use crate::status::{INSUFFICIENT_MEMORY, INVALID_HANDLE, OK, wire_status};
use sspi_ber::WireKind;
use sspi_tsreq::{TsReader, TsRequest};
use std::alloc::Global;

/// A reader that has been fed nothing.
#[unsafe(no_mangle)]
pub extern "C" fn newaksu_reader_new(alloc: Global, handle: &mut Handle) -> u32
    ensures { (reader : Fed) × Stands reader [] ×
        Puts handle.old.held handle.new.held (Ok (objects.Reader reader)) result }
{
    put(alloc, handle, Object::Reader(TsReader::new(alloc)))
}

fn feed(object: &mut Object, piece: &[u8]) -> u32
    ensures { HasFed (reader_in (Some object.old)) piece.now (Some object.old) (Some object.new)
        result }
{
    match object {
        Object::Reader(reader) => match reader.feed(piece) {
            Ok(()) => OK,
            Err(_) => INSUFFICIENT_MEMORY,
        },
        _ => INVALID_HANDLE,
    }
}

/// Reads on, with this piece after what was fed before.
#[unsafe(no_mangle)]
pub extern "C" fn newaksu_reader_feed(alloc: Global, handle: &mut Handle, piece: &[u8]) -> u32
    ensures { HasFed (reader_in handle.old.held) piece.now handle.old.held handle.new.held result }
{
    let Some(mut object) = handle.take(alloc) else {
        return INVALID_HANDLE;
    };
    let status = feed(&mut object, piece);
    handle.put(object);
    status
}

fn answered(reader: TsReader) -> Result<TsRequest, WireKind>
    ensures { Finishes reader result }
{
    reader.finish()
}

// What the reader answers; it is replaced by one that has been fed nothing.
fn finished(alloc: Global, reader: &mut TsReader) -> Result<TsRequest, WireKind>
    ensures answer { Finishes reader.old result }
    ensures fresh { Stands reader.new [] }
{
    answered(std::mem::replace(reader, TsReader::new(alloc)))
}

fn finish(alloc: Global, object: &mut Object) -> u32
    ensures { HasFinished (reader_in (Some object.old)) (Some object.old) (Some object.new) result }
{
    let Object::Reader(reader) = object else {
        return INVALID_HANDLE;
    };
    match finished(alloc, reader) {
        Ok(request) => {
            *object = Object::Request(KeptRequest::new(alloc, request));
            OK
        }
        Err(kind) => wire_status(kind),
    }
}

/// The request that the bytes fed begin with; it replaces the reader behind the handle.
#[unsafe(no_mangle)]
pub extern "C" fn newaksu_reader_finish(alloc: Global, handle: &mut Handle) -> u32
    ensures { HasFinished (reader_in handle.old.held) handle.old.held handle.new.held result }
{
    let Some(mut object) = handle.take(alloc) else {
        return INVALID_HANDLE;
    };
    let status = finish(alloc, &mut object);
    handle.put(object);
    status
}
