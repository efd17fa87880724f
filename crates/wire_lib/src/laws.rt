//! A law of receiving and sending: a function that does nothing. Call it where a proof needs its contract.
ghost use Rattle.schema_table.specs.Telling.{NamesTellParts};
ghost use Rattle.wire_lib.specs.Resent.{SendsLine, SendsWhatIsRead};
ghost use Rattle.wire_lib.specs.declared.receive.Reading.{Reading as Readings};
ghost use Rattle.wire_lib.specs.declared.send.Sending.{Sending as Sendings};

use wire_json::laws::parsed_as_printed;

/// What a sender makes of a receiver's line is the shortest frame of the value that was received.
///
/// It is for tables whose names tell the parts of each type apart (`NamesTellParts`), and for a sender of the type that the receiver
/// reads, to the same depth or more (`SendsWhatIsRead`).
pub fn sent_as_received()
    ensures sent { (reading : Readings) (sending : Sendings)
        → NamesTellParts reading.schema.now → SendsWhatIsRead reading sending
        → SendsLine reading sending }
{
    parsed_as_printed();
}
