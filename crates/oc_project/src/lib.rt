// Sharpening, element by element: `project` of oc.rs.
#![tactic(auto)]

ghost use Rattle.std.specs.Prelude.{◌≡◌};
ghost use Rattle.oc_project.specs.Project.{below_of, whole_of, projected, projected_slope};

// Sharpening at one steepness, with what `project` works out of the steepness alone.
#[derive(Clone, Copy)]
pub struct Projection {
    pub beta: f64,
    pub below: f64,
    pub whole: f64,
    pub ghost below_is: { below ≡ below_of beta },
    pub ghost whole_is: { whole ≡ whole_of beta },
}

#[derive(Clone, Copy)]
pub struct Projected {
    pub density: f64,
    pub slope: f64,
}

impl Projection {
    #[tactic(auto, unfolding(crate::specs::Project::below_of, crate::specs::Project::whole_of))]
    pub fn at(beta: f64) -> Projection
        ensures { result.beta ≡ beta }
    {
        let below = ieee_tanh::tanh(beta * topo::PROJECT_AT);
        let whole = below + ieee_tanh::tanh(beta * (1.0 - topo::PROJECT_AT));
        Projection { beta, below, whole }
    }

    // Sharpening: a filtered density v pushed toward 0 below a half and toward 1 above it, the more the larger the steepness, with 0 and 1 left where
    // they are; and how fast it moves with v.
    #[tactic(auto, unfolding(crate::specs::Project::turned, crate::specs::Project::projected, crate::specs::Project::projected_slope))]
    pub fn project(self, v: f64) -> Projected
        ensures { (result.density ≡ projected self.beta v) × (result.slope ≡ projected_slope self.beta v) }
    {
        let Projection { beta, below, whole } = self;
        let t = ieee_tanh::tanh(beta * (v - topo::PROJECT_AT));
        Projected {
            density: (below + t) / whole,
            slope: beta * (1.0 - t * t) / whole,
        }
    }
}
