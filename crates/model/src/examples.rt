//! Worked documents, as theorems.
ghost use Rattle.model.specs.Examples.{DocumentsComeOut};

/// Eighteen documents come out as the texts that they are meant for, and three requests are refused as they are meant to be, with every table of
/// characters. The sinks have space for 17 bytes, as many as the longest of the texts has, but where an example says otherwise.
pub fn worked_documents()
    ensures { DocumentsComeOut 17 }
{}
