//! Laws over the spellings of messages. Each is a function that does nothing; its clause is the
//! law.

ghost use Rattle.std.specs.Prelude.{◌≡◌, ◌≢◌, ◌<◌, ◌≤◌, ◌↔◌, ℕ, ℤ, pos, List, [], ◌++◌, length, Result, Ok, Err};
ghost use Rattle.mon_pdu.specs.declared.fault.PduFault.{PduFault};
ghost use Rattle.mon_pdu.specs.declared.fault.PduFault.TheVariants.{OutOfMemory, BadVersion, UnknownPdu};
ghost use Rattle.mon_pdu.specs.declared.message.Binding.{Binding};
ghost use Rattle.mon_pdu.specs.declared.message.Message.{Message};
ghost use Rattle.mon_pdu.specs.declared.message.Pdu.{Pdu};
ghost use Rattle.mon_pdu.specs.Grammar.{AreOctets, IsMessage, BeginsWithMessage, IsVersioned, HasUnknownPdu, bindings_of};
ghost use Rattle.mon_pdu.specs.Reading.{Fails, message_at};
ghost use Rattle.mon_pdu.specs.Sizes.{with_bindings, with_error};
ghost use Rattle.mon_pdu.specs.Writing.{HasLength, IsValid, written_message};

/// No spelling of a message is a proper prefix of a spelling of any message, and each has one
/// meaning.
pub fn front()
    ensures { (text more : List ℕ) (m n : Message) → IsMessage text m → IsMessage (text ++ more) n
        → (more ≡ []) × (m ≡ n) }
{}

/// The message that reading gives is spelled where the octets begin.
pub fn takes()
    ensures { (octets : List ℕ) (m : Message) → AreOctets octets → message_at octets ≡ Ok m
        → BeginsWithMessage octets m }
{}

/// Reading yields the message if the octets begin with a spelling of it.
pub fn again()
    ensures { (octets : List ℕ) (m : Message) → BeginsWithMessage octets m
        → message_at octets ≡ Ok m }
{}

/// Reading yields the fault of a version exactly where the octets begin with a SEQUENCE that begins
/// with that version, not 1.
pub fn version()
    ensures { (octets : List ℕ) (v : ℤ) → AreOctets octets
        → message_at octets ≡ Err (BadVersion v) ↔ (IsVersioned octets v × (v ≢ pos 1)) }
{}

/// Reading yields the fault of a PDU exactly where the tag of no PDU follows version 1 and a
/// community.
pub fn unknown_pdu()
    ensures { (octets : List ℕ) (t : ℕ) → AreOctets octets
        → message_at octets ≡ Err (UnknownPdu t) ↔ HasUnknownPdu octets t }
{}

/// A fault of a call, other than out of memory, is the fault that reading gives.
pub fn fault()
    ensures { (octets : List ℕ) (e : PduFault) → e ≢ OutOfMemory → Fails e (message_at octets)
        → message_at octets ≡ Err e }
{}

/// What is written for a message is one of its spellings.
pub fn written()
    ensures { (m : Message) → IsValid m → HasLength m → IsMessage (written_message m) m }
{}

/// No spelling of a message is shorter than what is written for it.
pub fn shortest()
    ensures { (text : List ℕ) (m : Message) → AreOctets text → IsMessage text m
        → length (written_message m) ≤ length text }
{
    mon_ber::laws::shortest();
}

/// A message that is spelled is valid and can be written.
pub fn rewritable()
    ensures { (text : List ℕ) (m : Message) → AreOctets text → IsMessage text m
        → IsValid m × HasLength m }
{
    mon_ber::laws::shortest();
}

/// What is written for a message is read as the same message, whatever follows it.
pub fn round_trip()
    ensures { (m : Message) (rest : List ℕ) → IsValid m → HasLength m
        → message_at (written_message m ++ rest) ≡ Ok m }
{}

/// A message with more variable bindings is written no shorter.
pub fn grows()
    ensures { (m : Message) (bindings more : List Binding)
        → length (written_message (with_bindings m bindings))
        ≤ length (written_message (with_bindings m (bindings ++ more))) }
{}

/// A message is written in no fewer octets than it has variable bindings.
pub fn counts()
    ensures { (m : Message) → length (bindings_of m.body) ≤ length (written_message m) }
{}

/// A PDU with an error-status of one octet is written no longer than with another status and an
/// index that is no smaller.
pub fn shrinks()
    ensures { (community : List ℕ) (p : Pdu) (status index other most : ℕ) → status < 128
        → index ≤ most
        → length (written_message (with_error community p (pos status) (pos index)))
        ≤ length (written_message (with_error community p (pos other) (pos most))) }
{}
