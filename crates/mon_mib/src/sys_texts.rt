ghost use Rattle.std.specs.Prelude.{◌≡◌};
ghost use Rattle.mon_mib.specs.Change.{put, same_text};
ghost use Rattle.mon_mib.specs.Sim.{sys_text_of};

use crate::facts::SysText;
use mon_ber::Octets;
use std::mem;

/// The texts of a device that can be set (RFC 3418 section 2).
#[derive(Debug)]
pub struct SysTexts {
    /// sysContact.
    pub contact: Octets,
    /// sysName.
    pub name: Octets,
    /// sysLocation.
    pub location: Octets,
}

// By hand: where one is let go, a proof has one call and not a drop of each field.
impl Drop for SysTexts {
    fn drop(self) {
        let SysTexts {
            contact: _,
            name: _,
            location: _,
        } = self;
    }
}

impl SysTexts {
    /// One of them.
    pub(crate) fn get(&self, which: SysText) -> &[u8]
        ensures { result.now ≡ sys_text_of self.now which }
    {
        match which {
            SysText::Contact => self.contact.as_slice(),
            SysText::SystemName => self.name.as_slice(),
            SysText::Location => self.location.as_slice(),
        }
    }

    /// Replaces one of them, and hands back what it was.
    pub(crate) fn replace(&mut self, which: SysText, text: Octets) -> Octets
        ensures was { result ≡ sys_text_of self.old which }
        ensures is { sys_text_of self.new ≡ put same_text which text (sys_text_of self.old) }
    {
        match which {
            SysText::Contact => mem::replace(&mut self.contact, text),
            SysText::SystemName => mem::replace(&mut self.name, text),
            SysText::Location => mem::replace(&mut self.location, text),
        }
    }
}
