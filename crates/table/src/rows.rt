// The rows of the table, by id.
ghost use Rattle.std.specs.Prelude.{◌≡◌};
ghost use Rattle.table.specs.Table.{known, row_of};

use crate::kinds::{
    ClockTag, FactTag, FrameTag, HandleTag, Kind, OutsideTag, PowerTag, Setting, TemperatureTag,
    VoltageTag,
};

// The row of a known tag: what it asks and the length of its request.
#[derive(Clone, Copy)]
pub struct Row {
    pub kind: Kind,
    pub request: usize,
}

fn known(kind: Kind, request: usize) -> Option<Row>
    ensures { result ≡ known kind request }
{
    Some(Row { kind, request })
}

// The row of an id, if it is known. A match and no map: fixed memory, and the rows are read beside those of the rules.
#[tactic(auto, unfolding(crate::specs::Table::row_of, crate::specs::Table::table))]
pub fn row_of(id: u32) -> Option<Row>
    ensures { result ≡ row_of id }
{
    match id {
        0x0000_0001 => known(Kind::Outside(OutsideTag::Fact(FactTag::Firmware)), 0),
        0x0001_0001 => known(Kind::Outside(OutsideTag::Fact(FactTag::Model)), 0),
        0x0001_0002 => known(Kind::Outside(OutsideTag::Fact(FactTag::Revision)), 0),
        0x0001_0003 => known(Kind::Outside(OutsideTag::Fact(FactTag::Mac)), 0),
        0x0001_0004 => known(Kind::Outside(OutsideTag::Fact(FactTag::Serial)), 0),
        0x0001_0005 => known(Kind::Outside(OutsideTag::Fact(FactTag::Arm)), 0),
        0x0001_0006 => known(Kind::Outside(OutsideTag::Fact(FactTag::Vc)), 0),
        0x0005_0001 => known(Kind::Outside(OutsideTag::Fact(FactTag::Line)), 0),
        0x0006_0001 => known(Kind::Outside(OutsideTag::Fact(FactTag::Dma)), 0),
        0x0002_0001 => known(Kind::Outside(OutsideTag::Power(PowerTag::State)), 4),
        0x0002_0002 => known(Kind::Outside(OutsideTag::Power(PowerTag::Timing)), 4),
        0x0002_8001 => known(Kind::Outside(OutsideTag::Power(PowerTag::SetState)), 8),
        0x0003_0001 => known(Kind::Outside(OutsideTag::Clock(ClockTag::State)), 4),
        0x0003_8001 => known(Kind::Outside(OutsideTag::Clock(ClockTag::SetState)), 8),
        0x0003_0002 => known(Kind::Outside(OutsideTag::Clock(ClockTag::Rate)), 4),
        0x0003_0004 => known(Kind::Outside(OutsideTag::Clock(ClockTag::Max)), 4),
        0x0003_0007 => known(Kind::Outside(OutsideTag::Clock(ClockTag::Min)), 4),
        0x0003_8002 => known(Kind::Outside(OutsideTag::Clock(ClockTag::SetRate)), 8),
        0x0003_0003 => known(Kind::Outside(OutsideTag::Voltage(VoltageTag::Get)), 4),
        0x0003_8003 => known(Kind::Outside(OutsideTag::Voltage(VoltageTag::Set)), 8),
        0x0003_0005 => known(Kind::Outside(OutsideTag::Voltage(VoltageTag::Max)), 4),
        0x0003_0008 => known(Kind::Outside(OutsideTag::Voltage(VoltageTag::Min)), 4),
        0x0003_0006 => known(
            Kind::Outside(OutsideTag::Temperature(TemperatureTag::Current)),
            4,
        ),
        0x0003_000a => known(
            Kind::Outside(OutsideTag::Temperature(TemperatureTag::Max)),
            4,
        ),
        0x0003_000c => known(Kind::Outside(OutsideTag::Allocate), 12),
        0x0003_000d => known(Kind::Outside(OutsideTag::Handle(HandleTag::Lock)), 4),
        0x0003_000e => known(Kind::Outside(OutsideTag::Handle(HandleTag::Unlock)), 4),
        0x0003_000f => known(Kind::Outside(OutsideTag::Handle(HandleTag::Release)), 4),
        0x0004_0003 => known(Kind::Group(FrameTag::Get(Setting::Physical)), 0),
        0x0004_4003 => known(Kind::Group(FrameTag::Test(Setting::Physical)), 8),
        0x0004_8003 => known(Kind::Group(FrameTag::Set(Setting::Physical)), 8),
        0x0004_0004 => known(Kind::Group(FrameTag::Get(Setting::Virtual)), 0),
        0x0004_4004 => known(Kind::Group(FrameTag::Test(Setting::Virtual)), 8),
        0x0004_8004 => known(Kind::Group(FrameTag::Set(Setting::Virtual)), 8),
        0x0004_0005 => known(Kind::Group(FrameTag::Get(Setting::Depth)), 0),
        0x0004_4005 => known(Kind::Group(FrameTag::Test(Setting::Depth)), 4),
        0x0004_8005 => known(Kind::Group(FrameTag::Set(Setting::Depth)), 4),
        0x0004_0006 => known(Kind::Group(FrameTag::Get(Setting::Order)), 0),
        0x0004_4006 => known(Kind::Group(FrameTag::Test(Setting::Order)), 4),
        0x0004_8006 => known(Kind::Group(FrameTag::Set(Setting::Order)), 4),
        0x0004_0007 => known(Kind::Group(FrameTag::Get(Setting::Alpha)), 0),
        0x0004_4007 => known(Kind::Group(FrameTag::Test(Setting::Alpha)), 4),
        0x0004_8007 => known(Kind::Group(FrameTag::Set(Setting::Alpha)), 4),
        0x0004_0009 => known(Kind::Group(FrameTag::Get(Setting::Offset)), 0),
        0x0004_4009 => known(Kind::Group(FrameTag::Test(Setting::Offset)), 8),
        0x0004_8009 => known(Kind::Group(FrameTag::Set(Setting::Offset)), 8),
        0x0004_0008 => known(Kind::Group(FrameTag::Pitch), 0),
        0x0004_0001 => known(Kind::Group(FrameTag::Allocate), 4),
        0x0004_8001 => known(Kind::Group(FrameTag::Release), 0),
        _ => None,
    }
}
