// The tracked providers: a set of ports of fixed capacity (heapless::index_set::FnvIndexSet of four).
ghost use Rattle.std.specs.Prelude.{◌≡◌};
ghost use Rattle.interface_display.specs.Providers.{none, contains, len, insert_of, remove_of};

use power_policy_interface::limits::MAX_PORTS;

// The most that are tracked at a time.
pub const MAX_CONNECTED_PROVIDERS: u16 = 4;

// A bit for each port, built and tested by shifts; at most four are set.
#[derive(Clone, Copy, PartialEq, Eq, Default)]
pub struct Providers {
    pub mask: u16,
}

impl Providers {
    pub fn new() -> Self
        ensures { result ≡ none }
    {
        Providers { mask: 0 }
    }

    // Whether a port is tracked.
    pub fn contains(self, port: u8) -> bool
        ensures { result ≡ contains self port }
    {
        port < MAX_PORTS && self.mask >> port & 1 == 1
    }

    // How many ports are tracked.
    #[tactic(auto, using(crate::proofs::Count::ones_counted))]
    pub fn len(self) -> u16
        ensures { result ≡ len self }
    {
        self.mask.count_ones() as u16
    }

    // Inserts a port: whether it was added, as it was not there yet; the port itself if there is no room for it.
    pub fn insert(&mut self, port: u8) -> Result<bool, u8>
        ensures found { result ≡ (insert_of self.old port).found }
        ensures after { self.new ≡ (insert_of self.old port).providers }
    {
        if self.contains(port) {
            return Ok(false);
        }
        if MAX_PORTS <= port || MAX_CONNECTED_PROVIDERS <= self.len() {
            return Err(port);
        }
        self.mask |= 1 << port;
        Ok(true)
    }

    // Removes a port: whether it was there.
    pub fn remove(&mut self, port: u8) -> bool
        ensures found { result ≡ (remove_of self.old port).found }
        ensures after { self.new ≡ (remove_of self.old port).providers }
    {
        let found = self.contains(port);
        if found {
            self.mask ^= 1 << port;
        }
        found
    }
}
