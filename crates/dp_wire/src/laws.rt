//! What holds of frames, whatever the bytes are.
ghost use Rattle.std.specs.Prelude.{◌≡◌, List, [], ℕ, ◌++◌};
ghost use Rattle.dp_wire.specs.Frames.{Splits, IsCommand, command_frame, commands_in, rest_of, IsPacketText};
ghost use Rattle.dp_wire.specs.Frames.{packet_frame, packets_in, rest_of_packets};

/// No frame of a command is a proper prefix of another.
pub fn no_frame_begins_another()
    ensures { (one other more : List ℕ) → IsCommand one → IsCommand other
        → command_frame one ++ more ≡ command_frame other → (one ≡ other) × (more ≡ []) }
{}

/// Bytes are split into commands and a rest in one way.
pub fn one_split()
    ensures { (bytes : List ℕ) (lines others : List (List ℕ)) (rest remains : List ℕ)
        → Splits IsCommand command_frame bytes lines rest → Splits IsCommand command_frame bytes others remains
        → (lines ≡ others) × (rest ≡ remains) }
{}

/// That way is the whole commands that the bytes begin with, and what follows them.
pub fn commands_are_split()
    ensures { (bytes : List ℕ) → Splits IsCommand command_frame bytes (commands_in bytes) (rest_of bytes) }
{}

/// No frame of a packet is a proper prefix of another.
pub fn no_packet_begins_another()
    ensures { (one other more : List ℕ) → IsPacketText one → IsPacketText other
        → packet_frame one ++ more ≡ packet_frame other → (one ≡ other) × (more ≡ []) }
{}

/// Bytes are split into packets and a rest in one way.
pub fn one_split_of_packets()
    ensures { (bytes : List ℕ) (texts others : List (List ℕ)) (rest remains : List ℕ)
        → Splits IsPacketText packet_frame bytes texts rest → Splits IsPacketText packet_frame bytes others remains
        → (texts ≡ others) × (rest ≡ remains) }
{}

/// That way is the whole packets that the bytes begin with, and what follows them.
pub fn packets_are_split()
    ensures { (bytes : List ℕ)
        → Splits IsPacketText packet_frame bytes (packets_in bytes) (rest_of_packets bytes) }
{}
