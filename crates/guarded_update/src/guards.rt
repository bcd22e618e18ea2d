// The spelling of guards.
use crate::spelled::Spelled;
use crate::{Guard, RequestFault};
use pond_base::{Fields, OutOfMemory, Version};
use std::alloc::Global;

impl Spelled for Guard {
    ghost use Rattle.guarded_update.specs.Spelling.{guard_string};
    ghost use Rattle.guarded_update.specs.Fitting.{IsGuard, guard_is_short};

    ghost spelling = { guard_string };

    ghost allowed = { IsGuard };

    ghost writable = { guard_is_short };

    fn read(_alloc: Global, fields: &mut Fields) -> Result<Guard, RequestFault> {
        match fields.take_u8()? {
            1 => Ok(Guard::VersionIs(Version(fields.take_u32()?))),
            2 => Ok(Guard::SizeIs(fields.take_u32()?)),
            3 => {
                let place = fields.take_u32()?;
                let name = fields.take_name()?;
                Ok(Guard::BlockIs { place, name })
            }
            _ => Err(RequestFault::BadRequest),
        }
    }

    fn write(&self, out: &mut Vec<u8>) -> Result<(), OutOfMemory> {
        match self {
            Guard::VersionIs(version) => {
                out.push(1)?;
                out.extend_from_slice(&version.0.to_be_bytes())?;
            }
            Guard::SizeIs(size) => {
                out.push(2)?;
                out.extend_from_slice(&size.to_be_bytes())?;
            }
            Guard::BlockIs { place, name } => {
                out.push(3)?;
                out.extend_from_slice(&place.to_be_bytes())?;
                out.extend_from_slice(&name.bytes())?;
            }
        }
        Ok(())
    }
}
