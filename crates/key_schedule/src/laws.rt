ghost use Rattle.key_schedule.specs.Laws.{Lengths, AllOctets, Seeds, MaterialBegins, LabelOctets, LabelsDiffer, CbcCut, GcmCut};
ghost use Rattle.key_schedule.specs.Vectors.{Master, Material, OtherOrder, ClientVerify, ServerVerify};

/// The laws of the schedule.
pub fn schedule_stands() -> u8
    ensures lengths { Lengths }
    ensures octets { AllOctets }
    ensures seeds { Seeds }
    ensures begins { MaterialBegins }
    ensures labels { LabelOctets }
    ensures differ { LabelsDiffer }
{
    0
}

/// The laws of cutting material into keys.
pub fn split_stands() -> u8
    ensures cbc { CbcCut }
    ensures gcm { GcmCut }
{
    0
}

/// Worked values.
pub fn vectors_stand() -> u8
    ensures master { Master }
    ensures material { Material }
    ensures order { OtherOrder }
    ensures client { ClientVerify }
    ensures server { ServerVerify }
{
    0
}
