// The parameters of a command.

// The methods that they go to: of one subchannel, `method` the number of the first one's, which is its
// byte number divided by 4. An increasing one rises from parameter to parameter.
#[derive(Clone, Copy)]
pub struct Methods {
    pub subchannel: u32,
    pub method: u32,
    pub increasing: bool,
}
