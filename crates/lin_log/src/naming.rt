//! How nodes, signals, schedule tables and frames are called.

ghost use Rattle.std.specs.Prelude.{◌≡◌, option_map};
ghost use Rattle.lin_log.specs.Language.{Language, name_at, named_language, number_named, plain};

use lin_parts::Cluster;

/// How nodes, signals, schedule tables and frames are called in lines, and how freely lines of steps
/// may be written.
pub trait Naming {
    ghost language: { Self → Language };

    /// The first node with this name.
    fn node_called(&self, name: &[u8]) -> Option<u8>
        ensures { result ≡ number_named (language self.now).nodes name.now };

    /// The first signal with this name.
    fn signal_called(&self, name: &[u8]) -> Option<u16>
        ensures { result ≡ number_named (language self.now).signals name.now };

    /// The first schedule table with this name.
    fn table_called(&self, name: &[u8]) -> Option<u16>
        ensures { result ≡ number_named (language self.now).tables name.now };

    /// The name of a node, where it has one.
    fn name_of_node(&self, node: u8) -> Option<&[u8]>
        ensures { option_map (λ w. w.now) result ≡ name_at (language self.now).nodes node };

    /// The name of a signal, where it has one.
    fn name_of_signal(&self, signal: u16) -> Option<&[u8]>
        ensures { option_map (λ w. w.now) result ≡ name_at (language self.now).signals signal };

    /// The name of a schedule table, where it has one.
    fn name_of_table(&self, table: u16) -> Option<&[u8]>
        ensures { option_map (λ w. w.now) result ≡ name_at (language self.now).tables table };

    /// The name of a frame, where it has one.
    fn name_of_frame(&self, frame: u16) -> Option<&[u8]>
        ensures { option_map (λ w. w.now) result ≡ name_at (language self.now).frames frame };

    /// The node that publishes a signal.
    fn publisher_of(&self, signal: u16) -> u8
        ensures { result ≡ (language self.now).publisher signal };

    /// Whether lines may be written freely.
    fn is_free(&self) -> bool
        ensures { result ≡ (language self.now).free };
}

/// Numbers alone: the language of `replay` and its log.
#[derive(Clone, Copy)]
pub struct NumberNaming;

impl Naming for NumberNaming {
    ghost language = { λ _. plain };

    #[inline]
    fn node_called(&self, _name: &[u8]) -> Option<u8> {
        None
    }

    #[inline]
    fn signal_called(&self, _name: &[u8]) -> Option<u16> {
        None
    }

    #[inline]
    fn table_called(&self, _name: &[u8]) -> Option<u16> {
        None
    }

    #[inline]
    fn name_of_node(&self, _node: u8) -> Option<&[u8]> {
        None
    }

    #[inline]
    fn name_of_signal(&self, _signal: u16) -> Option<&[u8]> {
        None
    }

    #[inline]
    fn name_of_table(&self, _table: u16) -> Option<&[u8]> {
        None
    }

    fn name_of_frame(&self, _frame: u16) -> Option<&[u8]> {
        None
    }

    #[inline]
    fn publisher_of(&self, _signal: u16) -> u8 {
        0
    }

    #[inline]
    fn is_free(&self) -> bool {
        false
    }
}

impl Naming for Cluster {
    ghost language = { λ c. named_language c };

    fn node_called(&self, name: &[u8]) -> Option<u8> {
        (0..self.nodes() as u8).find(|node| self.node_name(*node) == name)
    }

    fn signal_called(&self, name: &[u8]) -> Option<u16> {
        (0..self.signals() as u16).find(|signal| self.signal_name(*signal) == name)
    }

    fn table_called(&self, name: &[u8]) -> Option<u16> {
        (0..self.tables() as u16).find(|table| self.table_name(*table) == name)
    }

    fn name_of_node(&self, node: u8) -> Option<&[u8]> {
        if (node as usize) < self.nodes() {
            Some(self.node_name(node))
        } else {
            None
        }
    }

    fn name_of_signal(&self, signal: u16) -> Option<&[u8]> {
        if (signal as usize) < self.signals() {
            Some(self.signal_name(signal))
        } else {
            None
        }
    }

    fn name_of_table(&self, table: u16) -> Option<&[u8]> {
        if (table as usize) < self.tables() {
            Some(self.table_name(table))
        } else {
            None
        }
    }

    fn name_of_frame(&self, frame: u16) -> Option<&[u8]> {
        if (frame as usize) < self.frames() {
            Some(self.frame_name(frame))
        } else {
            None
        }
    }

    fn publisher_of(&self, signal: u16) -> u8 {
        if (signal as usize) < self.signals() {
            self.publisher(signal)
        } else {
            0
        }
    }

    fn is_free(&self) -> bool {
        true
    }
}
