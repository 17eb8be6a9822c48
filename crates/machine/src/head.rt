// The head of a state table (document 01, "Machine"): n states, k inputs and m outputs, each 1 to 16.
ghost use Rattle.std.specs.Prelude.{◌≡◌, ◌≤◌};
ghost use Rattle.machine.specs.Limits.{cells_most, numbers_most};
ghost use Rattle.machine.specs.Head.{within, made_head, HeadIn, cell_count, numbers};

#[derive(Clone, Copy)]
pub struct Head {
    pub states: usize,
    pub inputs: usize,
    pub outputs: usize,
}

// `x` is at least 1 and at most `top`.
pub fn is_within(x: usize, top: usize) -> bool
    ensures { result ≡ within x top }
{
    (1..=top).contains(&x)
}

impl Head {
    pub const STATES: usize = 16;

    pub const INPUTS: usize = 16;

    pub const OUTPUTS: usize = 16;

    pub const CELLS: usize = Head::STATES * Head::INPUTS;

    // The head of three numbers, if they make one.
    #[tactic(auto, unfolding(crate::specs::Head::made_head, crate::specs::Head::good_head))]
    pub fn new(states: usize, inputs: usize, outputs: usize) -> Option<Head>
        ensures made { result ≡ made_head states inputs outputs }
        ensures limit { Head.CELLS ≡ cells_most }
    {
        let is_head = is_within(states, Head::STATES)
            && is_within(inputs, Head::INPUTS)
            && is_within(outputs, Head::OUTPUTS);
        is_head.then_some(Head {
            states,
            inputs,
            outputs,
        })
    }

    // How many cells the table has.
    pub fn cells(self) -> usize
        requires { HeadIn self }
        ensures value { result ≡ cell_count self }
        ensures upper_bound { result ≤ cells_most }
    {
        self.states * self.inputs
    }

    // How many fault numbers the table has.
    pub fn numbers(self) -> usize
        requires { HeadIn self }
        ensures value { result ≡ numbers self }
        ensures upper_bound { result ≤ numbers_most }
    {
        self.cells() * (self.states + self.outputs)
    }
}
