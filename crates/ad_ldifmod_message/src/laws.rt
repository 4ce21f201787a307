//! Laws of the definitions, as contracts of functions that do nothing.

ghost use Rattle.std.specs.Prelude.{◌≡◌, ◌<◌, ◌≤◌, ◌^◌, ℕ, length};
ghost use Rattle.ad_ldif.specs.Change.{Change};
ghost use Rattle.ad_ldif.specs.Ranges.{HasItemOps};
ghost use Rattle.ad_ldap.specs.MessageValue.{MessageValue};
ghost use Rattle.ad_ldap.specs.Messages.{SpellsMessage};
ghost use Rattle.ad_ldifmod_message.specs.Asked.{ids_end, message_asked};
ghost use Rattle.ad_ldifmod_message.specs.Written.{message_bytes, IsWritable};

/// What a change record asks can be written, with a number from 1 to 2^31 - 1, where its items are those of a text;
/// and the bytes of such a message encode it.
pub fn what_a_change_asks()
    ensures writable { (c : Change) (id : ℕ) → HasItemOps c → 0 < id → id < ids_end
        → IsWritable (message_asked c id) }
    ensures spelled { (m : MessageValue) → IsWritable m → length (message_bytes m) < 2 ^ 32
        → SpellsMessage m (message_bytes m) }
{}
