// Sets of instances.
ghost use Rattle.std.specs.Prelude.{◌≡◌, ◌≤◌, true, MatchOption, slice_set};
ghost use Rattle.layers.specs.Shown.{in_group};

use chart::numbers::InstanceId;
use delivery::station::Station;

// A set of the instances 0 to 15: whether each is in it, by number. A fixed table, so that making a layer takes no memory.
#[derive(Clone, Copy)]
pub struct Group(pub [bool; 16]);

impl Group {
    pub const NONE: Group = Group([false; 16]);

    // The group and one instance more; there is none with an instance of 16 or more.
    pub fn with(self, instance: InstanceId) -> Option<Group>
        ensures { MatchOption result (16 ≤ instance.0) (λ g. g.0 ≡ slice_set self.0 instance.0 true) }
    {
        let mut members = self.0;
        let i = instance.0 as usize;
        if i >= members.len() {
            return None;
        }
        // by index, since of a write through an array's `get_mut` a proof knows no element
        members[i] = true;
        Some(Group(members))
    }

    pub(crate) fn has(&self, station: Station) -> bool
        ensures { result ≡ in_group self.now.0 station.number }
    {
        let member = self.0.get(u16::from(station) as usize);
        member.copied().unwrap_or(false)
    }
}
