// What the tags of the table ask, by family.
#[derive(Clone, Copy)]
pub enum FactTag {
    Firmware,
    Model,
    Revision,
    Mac,
    Serial,
    Arm,
    Vc,
    Line,
    Dma,
}

#[derive(Clone, Copy)]
pub enum PowerTag {
    State,
    Timing,
    SetState,
}

#[derive(Clone, Copy)]
pub enum ClockTag {
    State,
    SetState,
    Rate,
    Max,
    Min,
    SetRate,
}

#[derive(Clone, Copy)]
pub enum VoltageTag {
    Get,
    Set,
    Max,
    Min,
}

#[derive(Clone, Copy)]
pub enum TemperatureTag {
    Current,
    Max,
}

// What a tag asks of the block of a handle.
#[derive(Clone, Copy)]
pub enum HandleTag {
    Lock,
    Unlock,
    Release,
}

#[derive(Clone, Copy)]
pub enum Setting {
    Physical,
    Virtual,
    Depth,
    Order,
    Alpha,
    Offset,
}

// What a tag of the frame buffer group asks.
#[derive(Clone, Copy)]
pub enum FrameTag {
    Get(Setting),
    Test(Setting),
    Set(Setting),
    Pitch,
    Allocate,
    Release,
}

// What a known tag outside the frame buffer group asks, by family; `Allocate` and `Handle` are those of GPU
// memory.
#[derive(Clone, Copy)]
pub enum OutsideTag {
    Fact(FactTag),
    Power(PowerTag),
    Clock(ClockTag),
    Voltage(VoltageTag),
    Temperature(TemperatureTag),
    Allocate,
    Handle(HandleTag),
}

// What a known tag asks: of the frame buffer group, or outside it.
#[derive(Clone, Copy)]
pub enum Kind {
    Outside(OutsideTag),
    Group(FrameTag),
}
