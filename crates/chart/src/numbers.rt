// The numbers of a chart's parts, each a type of its own, so that none is passed for another.
// Any number may be asked about; a call refuses what the chart at hand does not have.

// An instance, by its place in the `inst` list.
#[derive(Clone, Copy, PartialEq, Eq, Debug)]
pub struct InstanceId(pub u16);

// A message, by the place of its out line among the out lines.
#[derive(Clone, Copy, PartialEq, Eq, Debug)]
pub struct MessageId(pub u16);

// An event, by the place of its line among the event lines.
#[derive(Clone, Copy, PartialEq, Eq, Debug)]
pub struct EventId(pub u16);
