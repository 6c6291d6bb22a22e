ghost use Rattle.std.specs.Prelude.{◌≡◌, ◌&&◌};
ghost use Rattle.std.specs.Str.{bytes_eq};
ghost use Rattle.mon_vacm.specs.Access.{is_model, view_for};
ghost use Rattle.mon_vacm.specs.Borrowed.{granted};

use crate::access::Access;
use crate::denied::Denied;
use crate::model::SecurityModel;
use crate::names::is_named;
use crate::view_type::ViewType;
use mon_ber::Octets;

/// The views that a group has under a security model (vacmAccessTable, RFC 3415 section 4).
pub struct AccessEntry {
    pub group_name: Octets,
    pub security_model: SecurityModel,
    /// The view for reading, if there is one.
    pub read_view: Option<Octets>,
    /// The view for writing, if there is one.
    pub write_view: Option<Octets>,
}

// By hand: where one is let go, a proof has one call and not a drop of each field.
impl Drop for AccessEntry {
    fn drop(self) {
        let AccessEntry {
            group_name: _,
            security_model: _,
            read_view: _,
            write_view: _,
        } = self;
    }
}

impl AccessEntry {
    /// Returns `true` if the entry is of this group and model.
    pub(crate) fn is_of(&self, group: &[u8], model: SecurityModel) -> bool
        ensures { result ≡ (bytes_eq self.now.group_name group.now
            && is_model self.now.security_model model) }
    {
        is_named(&self.group_name, group) && self.security_model == model
    }

    /// The view that the entry names for a need, or `NoSuchView`.
    pub(crate) fn view_for(&self, need: ViewType) -> Result<Access<'_>, Denied>
        ensures { granted result ≡ view_for self.now need }
    {
        let view = match need {
            ViewType::Read => &self.read_view,
            ViewType::Write => &self.write_view,
        };
        match view {
            Some(view) => Ok(Access {
                view: view.as_slice(),
            }),
            None => Err(Denied::NoSuchView),
        }
    }
}
